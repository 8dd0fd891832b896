// The kinds of calls of a store, and which of them are to fail.
ghost use Rattle.std.specs.Prelude.{◌≡◌, ◌==◌, ◌&&◌, ℕ, List, map};
ghost use Rattle.std.specs.List.{list_any};
ghost use Rattle.rc_outside.specs.Failures.{same_call, is_due, one_call_nearer};

/// The kinds of calls of a store that can be made to fail.
#[derive(Clone, Copy, Debug, PartialEq, Eq)]
pub enum StoreCall {
    /// `Store::numbers`.
    Numbers,
    /// `Store::size`.
    Size,
    /// `Store::read_at`.
    ReadAt,
    /// `Store::begin`.
    Begin,
    /// `Store::append`.
    Append,
    /// `Store::finish`.
    Finish,
}

impl StoreCall {
    /// Whether both are the same kind.
    fn is(self, other: StoreCall) -> bool
        ensures { result ≡ same_call self other }
    {
        self == other
    }
}

/// Whether the next call of this kind is to fail.
pub(crate) fn is_listed(fails: &[(StoreCall, u64)], call: StoreCall) -> bool
    ensures { result ≡ is_due call fails.now }
{
    fails.iter().any(|&(kind, nth)| kind.is(call) && nth == 1)
}

/// Brings each listed failure of this kind one call nearer.
pub(crate) fn draw_nearer(fails: &mut [(StoreCall, u64)], call: StoreCall)
    ensures { fails.new ≡ map (one_call_nearer call) fails.old }
{
    for failure in fails.iter_mut() {
        *failure = after(*failure, call);
    }
}

/// A listed failure after a call of this kind.
fn after(failure: (StoreCall, u64), call: StoreCall) -> (StoreCall, u64)
    ensures { result ≡ one_call_nearer call failure }
{
    let (kind, nth) = failure;
    if kind.is(call) {
        (kind, nth.saturating_sub(1))
    } else {
        (kind, nth)
    }
}
