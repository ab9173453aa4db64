ghost use Rattle.std.specs.Prelude.{◌≡◌, [], None};
ghost use Rattle.snow_engine.specs.Model.Run as model;
ghost use Rattle.snow_engine.specs.Model.Run.{after_frame};
ghost use Rattle.snow_engine.specs.Clauses.Serving.{stand_of, told, Opens, Stands, LogsFrame};

use crate::boxed::BoxedEnd;
use crate::end::{BadKind, End};
use crate::engine::{Engine, Task};
use crate::stop::EngineStop;
use snow_board::Board;
use snow_chain::Chain;
use snow_lines::{Lines, SkipKind};
use snow_wire::{Fault, View};
use std::alloc::Global;

/// An engine, once a Start came, and the lines of the frame that was worked last.
/// Rule: this project's own.
#[derive(Drop)]
pub struct Runner<C: Chain, B: Board> {
    pub task: Task,
    pub engine: Option<Engine<C, B>>,
    pub log: Lines,
    pub alloc: Global,
}

impl<C: Chain, B: Board> Runner<C, B> {
    /// Returns the runner to which no frame came yet. It takes no memory.
    /// Rule: this project's own.
    pub fn new(alloc: Global, task: Task) -> Self
        ensures engine { result.engine ≡ None }
        ensures task { result.task ≡ task }
        ensures log { result.log ≡ [] }
    {
        Runner {
            task,
            engine: None,
            log: Lines::new(alloc),
            alloc,
        }
    }

    /// Works one frame: the first has to be a Start, and each later one is a step of the engine.
    /// The log then has this frame's lines alone. Where the payload is no event, it returns why the
    /// frame is passed over, and no line of that stands in the log. It returns the end of the run
    /// where the frame brings it.
    /// Rule: this project's own.
    #[tactic(auto, unfolding(crate::specs::Model::Run::after_frame), using(crate::proofs::Stopped::stands_in, crate::proofs::Stopped::logs_in))]
    pub fn work(&mut self, frame: u64, payload: &[u8]) -> Result<Option<SkipKind>, BoxedEnd>
        ensures stand { Stands result self.new.engine (after_frame C.rules B.answer self.old.task (stand_of self.old.engine) frame payload.now).1 }
        ensures lines { LogsFrame result [] (told frame result self.new.log) (after_frame C.rules B.answer self.old.task (stand_of self.old.engine) frame payload.now).0 }
        ensures task { self.new.task ≡ self.old.task }
    {
        self.log.clear();
        let Some(engine) = &mut self.engine else {
            return self.work_first(frame, payload);
        };
        match View::read(payload) {
            Ok(event) => match engine.advance(frame, event, &mut self.log) {
                Ok(()) => Ok(None),
                Err(stop) => {
                    let end = End::at(frame, EngineStop::from(stop));
                    Err(BoxedEnd::new(self.alloc, end))
                }
            },
            Err(fault) => Ok(Some(kind_of(fault))),
        }
    }

    /// Works the first frame.
    // It moves a whole engine: were it inlined, each frame would probe the stack that this takes,
    // page by page.
    #[inline(never)]
    fn work_first(&mut self, frame: u64, payload: &[u8]) -> Result<Option<SkipKind>, BoxedEnd>
        requires engine { self.old.engine ≡ None }
        requires log { self.old.log ≡ [] }
        ensures stand { Stands result self.new.engine (model.opened C.rules self.old.task frame (model.read payload.now)).1 }
        ensures lines { LogsFrame result [] (told frame result self.new.log) (model.opened C.rules self.old.task frame (model.read payload.now)).0 }
        ensures task { self.new.task ≡ self.old.task }
    {
        match open(self.alloc, self.task, frame, payload, &mut self.log) {
            Ok(engine) => {
                drop(self.engine.replace(engine));
                Ok(None)
            }
            Err(end) => Err(BoxedEnd::new(self.alloc, end)),
        }
    }
}

/// Returns the engine that begins with the first frame, which has to be a Start.
#[tactic(auto, unfolding(crate::specs::Model::Run::opened), using(snow_node::proofs::Logs::logs_nothing))]
fn open<C: Chain, B: Board>(
    alloc: Global,
    task: Task,
    frame: u64,
    payload: &[u8],
    log: &mut Lines,
) -> Result<Engine<C, B>, End>
    ensures stand { Opens result (model.opened C.rules task frame (model.read payload.now)).1 }
    ensures lines { LogsFrame result log.old log.new (model.opened C.rules task frame (model.read payload.now)).0 }
{
    let Ok(View::Start(opening)) = View::read(payload) else {
        return Err(End::BadInput {
            frame,
            kind: BadKind::NotStart,
        });
    };
    let Ok(start) = opening.to_start(alloc) else {
        return Err(End::Memory);
    };
    match Engine::start(alloc, task, &start, log) {
        Ok(engine) => Ok(engine),
        Err(stop) => Err(End::at(frame, stop)),
    }
}

/// Returns the kind of skip for what is no event.
fn kind_of(fault: Fault) -> SkipKind
    ensures { result ≡ model.kind_of fault }
{
    match fault {
        Fault::Tag => SkipKind::Tag,
        Fault::Short => SkipKind::Short,
        Fault::Extra => SkipKind::Extra,
        Fault::Count => SkipKind::Count,
    }
}
