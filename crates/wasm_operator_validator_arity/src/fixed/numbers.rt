//! Pairs of numbers in 32 bits, from numbers that were looked up.

ghost use Rattle.std.specs.Prelude.{◌≡◌, ◌+◌, ◌-◌, Some, option_map};
ghost use Rattle.wasm_operator_validator_rules.specs.arity.Arity.{in_u32, opening, calling, leaving, keeping, turning, closing, results_alone, params_alone};
ghost use Rattle.wasm_operator_validator_arity.specs.fixed.Ended.{ended};

/// A number in 32 bits, where larger ones end.
pub fn in_u32(n: usize) -> u32
    ensures { result ≡ in_u32 n }
{
    if n < u32::MAX as usize {
        n as u32
    } else {
        u32::MAX
    }
}

/// The sum of two numbers, the same.
pub fn sum_in_u32(n: usize, more: usize) -> u32
    ensures { result ≡ in_u32 (n + more) }
{
    in_u32(n.saturating_add(more))
}

/// Where a frame is opened: the parameters, and so many more, are taken, and the parameters given.
pub fn opening(more: usize, counts: Option<(usize, usize)>) -> Option<(u32, u32)>
    ensures { result ≡ ended (opening more counts) }
{
    match counts {
        None => None,
        Some((params, _)) => Some((sum_in_u32(params, more), in_u32(params))),
    }
}

/// Where a function is called: the parameters, and so many more, are taken, and the results given.
pub fn calling(more: usize, counts: Option<(usize, usize)>) -> Option<(u32, u32)>
    ensures { result ≡ ended (calling more counts) }
{
    match counts {
        None => None,
        Some((params, results)) => Some((sum_in_u32(params, more), in_u32(results))),
    }
}

/// Where nothing is reached next: so many and more are taken.
pub fn leaving(more: usize, count: Option<usize>) -> Option<(u32, u32)>
    ensures { result ≡ ended (leaving more count) }
{
    match count {
        None => None,
        Some(count) => Some((sum_in_u32(count, more), 0)),
    }
}

/// Where operands are kept: so many and more are taken, and so many and some given.
pub fn keeping(more: usize, kept: usize, count: Option<usize>) -> Option<(u32, u32)>
    ensures { result ≡ ended (keeping more kept count) }
{
    match count {
        None => None,
        Some(count) => Some((sum_in_u32(count, more), sum_in_u32(count, kept))),
    }
}

/// Where a frame turns: its results are taken, and its parameters given.
pub fn turning(counts: Option<(usize, usize)>) -> Option<(u32, u32)>
    ensures { result ≡ ended (turning counts) }
{
    match counts {
        None => None,
        Some((params, results)) => Some((in_u32(results), in_u32(params))),
    }
}

/// Where a frame ends: its results are taken, and given.
pub fn closing(counts: Option<(usize, usize)>) -> Option<(u32, u32)>
    ensures { result ≡ ended (closing counts) }
{
    match counts {
        None => None,
        Some((_, results)) => Some((in_u32(results), in_u32(results))),
    }
}

/// The results alone.
pub fn results_of(counts: Option<(usize, usize)>) -> Option<usize>
    ensures { result ≡ results_alone counts }
{
    match counts {
        None => None,
        Some((_, results)) => Some(results),
    }
}

/// The parameters alone.
pub fn params_of(counts: Option<(usize, usize)>) -> Option<usize>
    ensures { result ≡ params_alone counts }
{
    match counts {
        None => None,
        Some((params, _)) => Some(params),
    }
}
