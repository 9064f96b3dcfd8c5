//! The locals of a body: read, and put at the end of those that there are.

ghost use Rattle.std.specs.Prelude.{◌≡◌, IfOk, IfErr, OnOk};
ghost use Rattle.wasm_types.specs.decoding.Denials.{RefusedAt};
ghost use Rattle.wasm_types.specs.decoding.Decoder.{Done, Reaches};
ghost use Rattle.wasm_types.specs.decoding.Leb.{u32 as u32_decoder};
ghost use Rattle.wasm_types.specs.decoding.declared.error.ErrorKind.TheVariants.{Failed, Other};
ghost use Rattle.wasm_types.specs.reader.Reading.{Fails, Gives};
ghost use Rattle.wasm_types.specs.decoding.Numbers.{IsRefused};
ghost use Rattle.wasm_operators_encoding.specs.Locals.{LocalGroup, group, group_of};
ghost use Rattle.wasm_operator_validator_stacks.specs.Defining.{DefinesLocals};
ghost use Rattle.wasm_module_validator_function_bodies.specs.Locals.{judged_by, relocated, TakesLocals, RefusesGroup, StopsLocals, ReadsLocals, DefinesMore};

use crate::FuncValidator;
use std::alloc::Global;
use wasm_operator_validator_driver::WasmModuleResources;
use wasm_operator_validator_locals::too_many_locals;
use wasm_types::{BinaryReader, Error, ModuleWords, Result, ValType, Words};

impl<R: WasmModuleResources> FuncValidator<R> {
    /// Reads the locals at the front of a body, and puts them behind those that there are. The reader stands behind them then, where
    /// the operators begin. It is Ok exactly if the bytes spell locals that the function may have by the validator's own features
    /// and limits, out of memory aside.
    ///
    /// # Errors
    ///
    /// Something was refused before; the bytes spell no locals; a group is refused, at its offset, first for its type and then for how many
    /// locals there are with it; or there is no memory. The reader stays then, the validator has failed, and each later call
    /// is refused.
    pub fn read_locals(&mut self, reader: &mut BinaryReader<'_>) -> Result<()>
        ensures reads { ReadsLocals (R.meaning self.old.resources) self.old.limits reader.old self.old.validator result
            reader.new self.new.validator }
        ensures resources { self.new.resources ≡ self.old.resources }
        ensures index { self.new.index ≡ self.old.index }
        ensures limits { self.new.limits ≡ self.old.limits }
    {
        if self.validator.has_failed() {
            return Err(failed_before(reader.original_position()));
        }
        let mut ahead = reader.clone();
        match self.take_locals(&mut ahead) {
            Ok(()) => (),
            Err(error) => {
                self.validator.fail();
                return Err(error);
            }
        }
        *reader = ahead;
        Ok(())
    }

    /// Puts `count` locals of a type behind those that there are, as a body that is read elsewhere declares them. They have a value from
    /// the start where the type has a default value (WebAssembly 3.0, validation, locals).
    ///
    /// # Errors
    ///
    /// Something was refused before; the module may not write the type, also for no locals; there would be more in all than the
    /// validator's limits say; or there is no memory. The locals stay as they were.
    pub fn define_locals(&mut self, offset: u64, count: u32, ty: ValType) -> Result<()>
        ensures defines { DefinesMore (R.meaning self.old.resources) self.old.limits.locals self.old.validator count ty
            result self.new.validator }
        ensures stays { IfErr result (λ _. self.new ≡ self.old) }
        ensures resources { self.new.resources ≡ self.old.resources }
        ensures index { self.new.index ≡ self.old.index }
        ensures limits { self.new.limits ≡ self.old.limits }
        ensures at { RefusedAt offset result }
    {
        if self.validator.has_failed() {
            return Err(failed_before(offset));
        }
        let limits = self.limits.get();
        self.validator
            .define_locals(limits, offset, count, ty, &self.resources)
    }

    /// Puts all groups of locals behind those that there are. Where one is refused, those before it were put there.
    fn take_locals(&mut self, reader: &mut BinaryReader<'_>) -> Result<()>
        ensures taken { OnOk result (TakesLocals (R.meaning self.old.resources)
            (judged_by self.old.validator.given.bits self.old.limits) reader.old self.old.validator reader.new
            self.new.validator) }
        ensures refused { IfErr result (λ e. StopsLocals (R.meaning self.old.resources)
            (judged_by self.old.validator.given.bits self.old.limits) reader.old self.old.validator e) }
        ensures others { self.new.validator ≡ relocated self.old.validator self.new.validator.given.locals }
        ensures resources { self.new.resources ≡ self.old.resources }
        ensures index { self.new.index ≡ self.old.index }
        ensures limits { self.new.limits ≡ self.old.limits }
    {
        let most = self.limits.get().locals;
        let Some(count) = reader.short_u32() else {
            return Err(no_number(reader));
        };
        for _ in 0..count {
            match self.take_group(reader) {
                Ok(()) => (),
                Err(error) => return Err(error),
            }
        }
        if self.validator.local(most).is_some() {
            return Err(too_many_locals(reader.original_position()));
        }
        Ok(())
    }

    /// Puts one group of locals behind those that there are.
    #[tactic(auto, unfolding(crate::specs::Locals::group))]
    fn take_group(&mut self, reader: &mut BinaryReader<'_>) -> Result<()>
        ensures taken { IfOk result (λ _. (l : LocalGroup) × (group reader.old ≡ Done l reader.new)
            × DefinesLocals (R.meaning self.old.resources) self.old.limits.locals self.old.validator l.count l.type
            self.new.validator) }
        ensures refused { IfErr result (λ e. RefusesGroup (R.meaning self.old.resources) self.old.limits.locals
            reader.old self.old.validator e) }
        ensures stays { IfErr result (λ _. self.new ≡ self.old) }
        ensures settings { reader.new.settings ≡ reader.old.settings }
        ensures resources { self.new.resources ≡ self.old.resources }
        ensures index { self.new.index ≡ self.old.index }
        ensures limits { self.new.limits ≡ self.old.limits }
    {
        let offset = reader.original_position();
        let group = match read_group(self.alloc, reader) {
            Ok(group) => group,
            Err(error) => return Err(error),
        };
        let limits = self.limits.get();
        self.validator
            .define_locals(limits, offset, group.0, group.1, &self.resources)
    }
}

/// A group of locals: how many, and their type. Where it is refused the reader may have gone on.
#[tactic(auto, using(wasm_types::specs::Laws::reaches_self, wasm_types::specs::Laws::reaches_then), unfolding(crate::specs::Locals::group))]
fn read_group(alloc: Global, reader: &mut BinaryReader<'_>) -> Result<(u32, ValType)>
    ensures answer { Gives (λ g. group_of g.0 g.1) result reader.new (group reader.old) }
    ensures forward { Reaches reader.old reader.new }
{
    let Some(count) = reader.short_u32() else {
        return Err(no_number(reader));
    };
    let ty = reader.read::<ValType>(alloc)?;
    Ok((count, ty))
}

/// Why no number is read here: `read_again`, with a place of its own for the answer, so that none is made ready before.
#[inline(always)]
fn no_number(reader: &BinaryReader<'_>) -> Error
    requires { IsRefused (u32_decoder reader.now) }
    ensures { Fails result (u32_decoder reader.now) }
{
    let error = read_again(reader);
    error
}

/// The same: the public reader says so.
#[cold]
#[inline(never)]
fn read_again(reader: &BinaryReader<'_>) -> Error
    requires { IsRefused (u32_decoder reader.now) }
    ensures { Fails result (u32_decoder reader.now) }
{
    let mut again = reader.clone();
    match again.read_var_u32() {
        Ok(_) => unreachable!(),
        Err(error) => error,
    }
}

/// The refusal of a call behind one that was refused.
#[cold]
fn failed_before(offset: u64) -> Error
    ensures kind { result.kind ≡ Failed }
    ensures offset { result.offset ≡ offset }
{
    Error::failed(
        Words::Module(ModuleWords::TheFunctionWasRefusedBefore),
        offset,
    )
}
