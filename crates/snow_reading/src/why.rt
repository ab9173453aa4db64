use crate::field::Field;
use crate::kind::is;
use snow_lines::{DropWhy, QueryWhy, RestartWhy, SkipKind};

impl Field for DropWhy {
    ghost use Rattle.snow_reading.specs.Model.Names.{why_of};

    ghost read = { why_of };

    fn of(word: &[u8]) -> Option<Self> {
        if is(word, b"parent") {
            Some(DropWhy::Parent)
        } else if is(word, b"full") {
            Some(DropWhy::Full)
        } else if is(word, b"invalid") {
            Some(DropWhy::Invalid)
        } else if is(word, b"old") {
            Some(DropWhy::Old)
        } else {
            None
        }
    }
}

impl Field for QueryWhy {
    ghost use Rattle.snow_reading.specs.Model.Names.{query_of};

    ghost read = { query_of };

    fn of(word: &[u8]) -> Option<Self> {
        if is(word, b"full") {
            Some(QueryWhy::Full)
        } else if is(word, b"units") {
            Some(QueryWhy::Units)
        } else if is(word, b"words") {
            Some(QueryWhy::Words)
        } else {
            None
        }
    }
}

impl Field for RestartWhy {
    ghost use Rattle.snow_reading.specs.Model.Names.{restart_of};

    ghost read = { restart_of };

    fn of(word: &[u8]) -> Option<Self> {
        if is(word, b"frontier") {
            Some(RestartWhy::Frontier)
        } else if is(word, b"accepted") {
            Some(RestartWhy::Accepted)
        } else {
            None
        }
    }
}

impl Field for SkipKind {
    ghost use Rattle.snow_reading.specs.Model.Names.{kind_of};

    ghost read = { kind_of };

    fn of(word: &[u8]) -> Option<Self> {
        if is(word, b"tag") {
            Some(SkipKind::Tag)
        } else if is(word, b"short") {
            Some(SkipKind::Short)
        } else if is(word, b"extra") {
            Some(SkipKind::Extra)
        } else if is(word, b"count") {
            Some(SkipKind::Count)
        } else if is(word, b"task") {
            Some(SkipKind::Task)
        } else if is(word, b"stage") {
            Some(SkipKind::Stage)
        } else if is(word, b"votes") {
            Some(SkipKind::Votes)
        } else if is(word, b"full") {
            Some(SkipKind::Full)
        } else if is(word, b"block") {
            Some(SkipKind::Block)
        } else if is(word, b"nodes") {
            Some(SkipKind::Nodes)
        } else {
            None
        }
    }
}
