ghost use Rattle.std.specs.Prelude.{◌≡◌, ◌==◌, ℕ, List, [], ◌∷◌, ◌++◌, true, not, IsSome, IfOk, OnOk, OnErr, bytes_eq, if◌then◌else◌};
ghost use Rattle.std.specs.Bool.{OnTrue};
ghost use Rattle.std.specs.Option.{option_to_list};
ghost use Rattle.snow_lineup.specs.Kept.Index.{row_of, row_before, has_place, left_by};
ghost use Rattle.snow_map.specs.Clauses.Entries.{value_of};

use snow_base::Id;
use snow_map::IdMap;
use std::alloc::{AllocError, Global};
use std::collections::HashMap;
use std::collections::hash_map::Entry;
use std::marker::Model;

/// Places of a key, in the order in which they came.
#[derive(Drop)]
pub(crate) struct Row {
    places: Vec<u64>,
}

impl Model for Row {
    ghost use Rattle.std.specs.Prelude.{ℕ, List};

    ghost Value = { List ℕ };

    ghost view = { λ a. a.places.items };
}

impl Row {
    // One place.
    fn of(alloc: Global, place: u64) -> Result<Row, AllocError>
        ensures { IfOk result (λ row. row ≡ place ∷ []) }
    {
        let mut places = Vec::new(alloc);
        places.push(place)?;
        Ok(Row { places })
    }

    fn push(&mut self, place: u64) -> Result<(), AllocError>
        ensures ok { OnOk result (self.new ≡ self.old ++ place ∷ []) }
        ensures err { OnErr result (self.new ≡ self.old) }
    {
        self.places.push(place)?;
        Ok(())
    }

    // A place goes. Whether none is left.
    fn leave(&mut self, place: u64) -> bool
        ensures left { self.new ≡ left_by place self.old }
        ensures none { OnTrue result (self.new ≡ []) }
    {
        self.places.retain(
            |other: &u64| -> bool
                ensures { result ≡ not (other.now == place) }
            { *other != place },
        );
        self.places.is_empty()
    }

    fn as_slice(&self) -> &[u64]
        ensures { result.now ≡ self.now }
    {
        self.places.as_slice()
    }
}

/// The places of each key. The last one of a key stands apart from those that came before it, since
/// mostly there are none.
#[derive(Drop)]
pub(crate) struct Places {
    pub(crate) last: IdMap<u64>,
    pub(crate) before: HashMap<Id, Row>,
}

/// At which places the items of each key stand.
#[derive(Drop)]
pub(crate) struct Rows {
    alloc: Global,
    pub(crate) rows: Places,
}

impl Rows {
    /// No place of any key. It takes no memory.
    pub(crate) fn new(alloc: Global) -> Rows
        ensures { (key : List ℕ) → row_of result.rows key ≡ [] }
    {
        Rows {
            alloc,
            rows: Places {
                last: IdMap::new(alloc),
                before: HashMap::new(alloc),
            },
        }
    }

    /// One place more of a key. After want of memory the rows are as before.
    pub(crate) fn note(&mut self, key: Id, place: u64) -> Result<(), AllocError>
        ensures ok { OnOk result ((q : List ℕ) → row_of self.new.rows q ≡ (if bytes_eq key q then row_of self.old.rows q ++ place ∷ [] else row_of self.old.rows q)) }
        ensures err { OnErr result ((q : List ℕ) → row_of self.new.rows q ≡ row_of self.old.rows q) }
    {
        match self.rows.last.insert(key, place)? {
            None => Ok(()),
            Some(last) => {
                self.extend(key, last)?;
                Ok(())
            }
        }
    }

    // What was the last place of a key comes to those before it. After want of memory it is the last one
    // again.
    fn extend(&mut self, key: Id, last: u64) -> Result<(), AllocError>
        requires { IsSome (value_of self.old.rows.last key) }
        ensures ok { OnOk result ((q : List ℕ) → row_of self.new.rows q ≡ (if bytes_eq key q then row_before self.old.rows.before q ++ last ∷ option_to_list (value_of self.old.rows.last q) else row_of self.old.rows q)) }
        ensures err { OnErr result ((q : List ℕ) → row_of self.new.rows q ≡ (if bytes_eq key q then row_before self.old.rows.before q ++ last ∷ [] else row_of self.old.rows q)) }
    {
        match append(&mut self.rows.before, self.alloc, key, last) {
            Ok(()) => Ok(()),
            Err(error) => {
                let _ = self.rows.last.insert(key, last);
                Err(error)
            }
        }
    }

    /// A place that a key has goes. It takes no memory where the key has one.
    pub(crate) fn take(&mut self, key: &Id, place: u64)
        requires { has_place place (row_of self.old.rows key.now) ≡ true }
        ensures { (q : List ℕ) → row_of self.new.rows q ≡ (if bytes_eq key.now q then left_by place (row_of self.old.rows q) else row_of self.old.rows q) }
    {
        if self.are_single() {
            // No key has several places: it is the last one.
            let _ = self.rows.last.remove(key);
        } else {
            self.thin(key, place);
        }
    }

    // A place of a key that has several goes.
    fn thin(&mut self, key: &Id, place: u64)
        ensures { (q : List ℕ) → row_of self.new.rows q ≡ (if bytes_eq key.now q then left_by place (row_of self.old.rows q) else row_of self.old.rows q) }
    {
        leave_before(&mut self.rows.before, key, place);
        leave_last(&mut self.rows.last, key, place);
    }

    /// Whether it is plain that no key has several places.
    pub(crate) fn are_single(&self) -> bool
        ensures { result ≡ true → (q : List ℕ) → row_before self.now.rows.before q ≡ [] }
    {
        self.rows.before.is_empty()
    }

    /// The last place of a key.
    pub(crate) fn last(&self, key: &Id) -> Option<u64>
        ensures { row_before self.now.rows.before key.now ++ option_to_list result ≡ row_of self.now.rows key.now }
    {
        self.rows.last.get(key).copied()
    }

    /// The places of a key: all but the last, and the last.
    pub(crate) fn of(&self, key: &Id) -> (&[u64], Option<u64>)
        ensures { result.0.now ++ option_to_list result.1 ≡ row_of self.now.rows key.now }
    {
        (row_at(&self.rows.before, key), self.last(key))
    }
}

// The places of a key but the last.
fn row_at<'a>(before: &'a HashMap<Id, Row>, key: &Id) -> &'a [u64]
    ensures { result.now ≡ row_before before.now key.now }
{
    match before.get(key) {
        Some(row) => row.as_slice(),
        None => &[],
    }
}

// One place more of a key. After want of memory the rows are as before.
fn append(
    before: &mut HashMap<Id, Row>,
    alloc: Global,
    key: Id,
    place: u64,
) -> Result<(), AllocError>
    ensures ok { OnOk result ((q : List ℕ) → row_before before.new q ≡ (if bytes_eq key q then row_before before.old q ++ place ∷ [] else row_before before.old q)) }
    ensures err { OnErr result ((q : List ℕ) → row_before before.new q ≡ row_before before.old q) }
{
    match before.entry(key)? {
        Entry::Occupied(entry) => entry.into_mut().push(place),
        Entry::Vacant(entry) => {
            let row = Row::of(alloc, place)?;
            let _ = entry.insert(row);
            Ok(())
        }
    }
}

// A place of a key goes, unless it is the last one. It takes no memory where the key has one.
fn leave_before(before: &mut HashMap<Id, Row>, key: &Id, place: u64)
    ensures { (q : List ℕ) → row_before before.new q ≡ (if bytes_eq key.now q then left_by place (row_before before.old q) else row_before before.old q) }
{
    let is_empty = match before.get_mut(key) {
        Some(row) => row.leave(place),
        None => false,
    };
    if is_empty {
        let _ = before.remove(key);
    }
}

// A place of a key goes, if it is the last one.
fn leave_last(last: &mut IdMap<u64>, key: &Id, place: u64)
    ensures { (q : List ℕ) → option_to_list (value_of last.new q) ≡ (if bytes_eq key.now q then left_by place (option_to_list (value_of last.old q)) else option_to_list (value_of last.old q)) }
{
    if let Some(there) = last.get(key) {
        if *there == place {
            let _ = last.remove(key);
        }
    }
}
