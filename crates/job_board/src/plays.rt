//! What each step on the table tells.
ghost use Rattle.std.specs.Prelude.{None};
ghost use Rattle.job_board.specs.Plays.{Looks, Claims, Tells, Ends, Counts, Stops};
ghost use Rattle.job_board.specs.Notes.{IsRight};
ghost use Rattle.job_board.specs.Views.{cut_view, split_off, spent_view, joined_view};

use crate::view::View;
use atomic_table::{Join, Play, Split};
use job_graph::{CellNote, Defined};
use std::marker::PhantomData;

pub(crate) struct Look;

impl<T, K> Play<Option<CellNote<T>>, View<T, K>> for Look {
    ghost then = { Looks };
}

pub(crate) struct Claim<T> {
    marker: PhantomData<T>,
}

impl<T: Defined> Play<Option<CellNote<T>>, View<T, T::Key>> for Claim<T> {
    ghost then = { Claims None (IsRight T.is_defined) };
}

pub(crate) struct Tell;

impl<T, K> Play<Option<CellNote<T>>, View<T, K>> for Tell {
    ghost then = { Tells };
}

pub(crate) struct End;

impl<T, K> Play<Option<CellNote<T>>, View<T, K>> for End {
    ghost then = { Ends };
}

pub(crate) struct Count;

impl<T, K> Play<Option<CellNote<T>>, View<T, K>> for Count {
    ghost then = { Counts };
}

pub(crate) struct Stop;

impl<T, K> Play<Option<CellNote<T>>, View<T, K>> for Stop {
    ghost then = { Stops };
}

pub(crate) struct Cut;

impl<T, K> Split<View<T, K>> for Cut {
    ghost left = { cut_view };

    ghost right = { split_off };
}

pub(crate) struct Glue;

impl<T, K> Join<View<T, K>> for Glue {
    ghost both = { joined_view };

    ghost spent = { spent_view };
}
