// Places among n in a ring.
ghost use Rattle.std.specs.Prelude.{◌≡◌, ◌-◌, ◌%◌, ◌<◌, ◌≤◌};
ghost use Rattle.probing_table.specs.Probed.{spot as spot_from};

// The place where a probe for the hash begins.
pub(crate) fn home(hash: u64, n: usize) -> usize
    ensures is { 0 < n → result ≡ hash % n }
    ensures below { result ≤ n - 1 }
{
    if n == 0 {
        0
    } else {
        (hash % n as u64) as usize
    }
}

// The place j steps on from the start.
pub(crate) fn spot(start: usize, j: usize, n: usize) -> usize
    ensures { start ≤ n → result ≡ spot_from n start j }
{
    let after = n.saturating_sub(start);
    if j < after { start + j } else { j - after }
}

// The next place.
pub(crate) fn after(place: usize, n: usize) -> usize
    requires { place < n }
    ensures is { result ≡ spot_from n place 1 }
    ensures below { result < n }
{
    if place + 1 < n { place + 1 } else { 0 }
}

// The place whose next place this is.
pub(crate) fn before(place: usize, n: usize) -> usize
    requires { place < n }
    ensures is { spot_from n result 1 ≡ place }
    ensures below { result < n }
{
    if place > 0 { place - 1 } else { n - 1 }
}
