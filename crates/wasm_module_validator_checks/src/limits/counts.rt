//! Counts and sizes against their limits.

ghost use Rattle.std.specs.Prelude.{◌≡◌, ◌+◌, ◌≤◌, ◌<◌, IfErr, IfOk};
ghost use Rattle.wasm_types.specs.decoding.Denials.{Tells};
ghost use Rattle.wasm_types.specs.decoding.declared.error.ErrorKind.TheVariants.{Other};

use wasm_types::{Error, ModuleWords, Result, Text, Words};

/// Refuses more things than the limit: so many that are there, and so many that are to come.
///
/// # Errors
///
/// Both together are more than `max`: an error of kind `Other`, at `offset`.
pub fn check_max(cur_len: usize, amt_added: u32, max: u32, desc: Words, offset: u64) -> Result<()>
    ensures answer { Tells result (cur_len + amt_added ≤ max) }
    ensures refused { IfErr result (λ e. (e.kind ≡ Other) × (e.offset ≡ offset)) }
{
    let most = max as usize;
    if cur_len <= most && amt_added as usize <= most - cur_len {
        return Ok(());
    }
    Err(too_many(max, desc, offset))
}

/// The refusal of more things than the limit.
#[cold]
pub fn too_many(max: u32, desc: Words, offset: u64) -> Error
    ensures kind { result.kind ≡ Other }
    ensures at { result.offset ≡ offset }
{
    if max == 1 {
        return Error::with(
            Text::Word(Words::Module(ModuleWords::Multiple), desc),
            offset,
        );
    }
    Error::with(Text::PastLimit(desc, max), offset)
}

/// The sum of two sizes of types, which is below the limit.
///
/// # Errors
///
/// The sum is not below `limit`: an error of kind `Other`, at `offset`.
pub fn combine_type_sizes(a: u32, b: u32, limit: u32, offset: u64) -> Result<u32>
    ensures answer { Tells result (a + b < limit) }
    ensures sum { IfOk result (λ sum. sum ≡ a + b) }
    ensures refused { IfErr result (λ e. (e.kind ≡ Other) × (e.offset ≡ offset)) }
{
    if a < limit && b < limit - a {
        return Ok(a + b);
    }
    Err(Error::with(
        Text::Number(
            Words::Module(ModuleWords::EffectiveTypeSizeExceedsTheLimitOf),
            limit,
            Words::Nothing,
        ),
        offset,
    ))
}
