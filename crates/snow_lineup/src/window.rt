ghost use Rattle.std.specs.Prelude.{◌≡◌, ◌+◌, ◌<◌, ◌≤◌, ◌^◌, true, IfSome};
ghost use Rattle.snow_lineup.specs.Kept.Windows.{no_place, all_places, with_place, closed_up, from_first, all_fresh, no_windows, marked, all_closed_up, window_of, narrowed};

use crate::marks::Mark;

/// Places from `low` on and below `high`: what is looked for stands nowhere else.
#[derive(Clone, Copy, Debug)]
pub(crate) struct Window {
    pub(crate) low: usize,
    pub(crate) high: usize,
}

impl Window {
    fn empty() -> Window
        ensures { result ≡ no_place }
    {
        Window { low: 0, high: 0 }
    }

    fn all(len: usize) -> Window
        ensures { result ≡ all_places len }
    {
        Window { low: 0, high: len }
    }

    fn with(self, at: usize) -> Window
        requires { at < 2 ^ 63 }
        ensures { result ≡ with_place self at }
    {
        if self.low < self.high {
            Window {
                low: self.low.min(at),
                high: self.high.max(at + 1),
            }
        } else {
            Window {
                low: at,
                high: at + 1,
            }
        }
    }

    fn without(self, at: usize) -> Window
        ensures { result ≡ closed_up self at }
    {
        Window {
            low: if at < self.low {
                self.low - 1
            } else {
                self.low
            },
            high: if at < self.high {
                self.high - 1
            } else {
                self.high
            },
        }
    }

    fn from_first(self, at: usize, len: usize) -> Window
        ensures { result ≡ from_first self at len }
    {
        if at < len {
            Window {
                low: at,
                high: self.high,
            }
        } else {
            Window::empty()
        }
    }
}

/// Where items may stand of which nothing is remembered, and where ripe ones may. So what was looked
/// at and didn't change is passed by.
#[derive(Clone, Copy, Debug)]
pub(crate) struct Windows {
    pub(crate) fresh: Window,
    pub(crate) ripe: Window,
}

impl Windows {
    /// There is no item.
    pub(crate) fn empty() -> Windows
        ensures { result ≡ no_windows }
    {
        Windows {
            fresh: Window::empty(),
            ripe: Window::empty(),
        }
    }

    /// Nothing is remembered of so many items.
    pub(crate) fn all_fresh(len: usize) -> Windows
        ensures { result ≡ all_fresh len }
    {
        Windows {
            fresh: Window::all(len),
            ripe: Window::empty(),
        }
    }

    /// After something is remembered of the item at a place.
    pub(crate) fn marked(self, at: usize, mark: Mark) -> Windows
        requires { at < 2 ^ 63 }
        ensures { result ≡ marked self at mark }
    {
        let Windows { fresh, ripe } = self;
        match mark {
            Mark::New => Windows {
                fresh: fresh.with(at),
                ripe,
            },
            Mark::Quiet => self,
            Mark::Ripe => Windows {
                fresh,
                ripe: ripe.with(at),
            },
        }
    }

    /// After the item at a place went.
    pub(crate) fn without(self, at: usize) -> Windows
        ensures { result ≡ all_closed_up self at }
    {
        Windows {
            fresh: self.fresh.without(at),
            ripe: self.ripe.without(at),
        }
    }

    /// Whether there is no place in either window.
    pub(crate) fn are_empty(self) -> bool
        ensures fresh { result ≡ true → self.fresh.high ≤ self.fresh.low }
        ensures ripe { result ≡ true → self.ripe.high ≤ self.ripe.low }
    {
        self.fresh.high <= self.fresh.low && self.ripe.high <= self.ripe.low
    }

    /// The one place of so many where a new item may stand, where no ripe one may.
    pub(crate) fn only_fresh(self, len: usize) -> Option<usize>
        ensures there { IfSome result (λ at. at < len) }
        ensures low { IfSome result (λ at. self.fresh.low ≡ at) }
        ensures high { IfSome result (λ at. self.fresh.high ≡ at + 1) }
        ensures ripe { IfSome result (λ at. self.ripe.high ≤ self.ripe.low) }
    {
        let Window { low, high } = self.fresh;
        if low < len && high == low + 1 && self.ripe.high <= self.ripe.low {
            return Some(low);
        }
        None
    }

    /// Where a mark may stand among so many items.
    pub(crate) fn of(self, mark: Mark, len: usize) -> Window
        ensures { result ≡ window_of self mark len }
    {
        match mark {
            Mark::New => self.fresh,
            Mark::Quiet => Window::all(len),
            Mark::Ripe => self.ripe,
        }
    }

    /// After the first item with a mark was found at a place, or none among so many.
    pub(crate) fn narrowed(self, mark: Mark, at: usize, len: usize) -> Windows
        ensures { result ≡ narrowed self mark at len }
    {
        let Windows { fresh, ripe } = self;
        match mark {
            Mark::New => Windows {
                fresh: fresh.from_first(at, len),
                ripe,
            },
            Mark::Quiet => self,
            Mark::Ripe => Windows {
                fresh,
                ripe: ripe.from_first(at, len),
            },
        }
    }
}
