ghost use Rattle.std.specs.Prelude.{◌≡◌, map, string_bytes};
ghost use Rattle.snow_text_cli.specs.Model.Words.{asked, form_named, form_set, is_option, task_in, task_of};

use snow_text::BlockForm;

/// What the words of the command line ask for.
/// Rule: this project's own.
#[derive(Clone, Copy, Debug, PartialEq, Eq)]
pub enum Request {
    /// The text of a stream, with its blocks in this form.
    Show(BlockForm),
    /// The stream that a text means.
    Make,
}

/// Returns what the words of the command line ask for, without the program's name: `show` or
/// `make`, with `--chain plain`, `--chain tally`, `--chain ledger` or the same with `=`, which
/// stands before or behind that word, or not at all. Without it blocks are shown as bytes. A text
/// is made alike with and without it, since each block's words tell their chain. It returns `None`
/// exactly where the words are others. It takes no memory.
/// Rule: this project's own.
#[tactic(auto, unfolding(crate::specs::Model::Words::asked))]
pub fn read_request(words: &Vec<String>) -> Option<Request>
    ensures { result ≡ asked (map string_bytes words.now.items) }
{
    match words.as_slice() {
        [task] => task_of(task, BlockForm::Bytes),
        [first, second] => match form_set(first) {
            Some(form) => task_of(second, form),
            None => task_in(first, form_set(second)),
        },
        [first, second, third] => {
            if is_option(first) {
                return task_in(third, form_named(second));
            }
            if is_option(second) {
                return task_in(first, form_named(third));
            }
            None
        }
        _ => None,
    }
}

/// Returns what a task asks for, with blocks in this form.
fn task_of(task: &str, form: BlockForm) -> Option<Request>
    ensures { result ≡ task_of task.now form }
{
    match task {
        "show" => Some(Request::Show(form)),
        "make" => Some(Request::Make),
        _ => None,
    }
}

/// Returns what a task asks for, where there is a form.
fn task_in(task: &str, form: Option<BlockForm>) -> Option<Request>
    ensures { result ≡ task_in task.now form }
{
    task_of(task, form?)
}

/// Returns whether a word is the option's name.
fn is_option(word: &str) -> bool
    ensures { result ≡ is_option word.now }
{
    word == "--chain"
}

/// Returns the form that the name of a chain chooses.
fn form_named(name: &str) -> Option<BlockForm>
    ensures { result ≡ form_named name.now }
{
    match name {
        "plain" => Some(BlockForm::Plain),
        "tally" => Some(BlockForm::Tally),
        "ledger" => Some(BlockForm::Ledger),
        _ => None,
    }
}

/// Returns the form that an option with its value in one word chooses.
fn form_set(word: &str) -> Option<BlockForm>
    ensures { result ≡ form_set word.now }
{
    match word {
        "--chain=plain" => Some(BlockForm::Plain),
        "--chain=tally" => Some(BlockForm::Tally),
        "--chain=ledger" => Some(BlockForm::Ledger),
        _ => None,
    }
}
