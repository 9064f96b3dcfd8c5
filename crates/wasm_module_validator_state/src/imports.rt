//! Imports.

ghost use Rattle.std.specs.Prelude.{◌≡◌, ◌+◌, ◌<◌, IfErr, IfOk, OnOk, OnErr, length};
ghost use Rattle.wasm_types.specs.decoding.Denials.{Tells, UnlessMemory};
ghost use Rattle.wasm_types.specs.decoding.declared.error.ErrorKind.TheVariants.{Other, OutOfMemory};
ghost use Rattle.wasm_module_validator_checks.specs.rules.Valid.{IsValidImport, import_size};
ghost use Rattle.wasm_module_validator_checks.specs.externs.Refusals.{IsRefusal, allowing};
ghost use Rattle.wasm_module_validator_exports.specs.Imports.{IsNamedImport};
ghost use Rattle.wasm_module_validator_resources.specs.Named.{IsReadOver};
ghost use Rattle.wasm_module_validator_resources.specs.Reading.{context_of, meaning_of};
ghost use Rattle.wasm_module_validator_state.specs.Adding.{importing};
ghost use Rattle.wasm_module_validator_state.specs.Items.{HasItsType, HasRoomFor, IsImportable, IsImported, IsLeft, IsRefusedBy, next_index, next_place};
ghost use Rattle.wasm_sections_items.specs.imports.Spells.{kind_of};

use crate::ModuleState;
use wasm_module_validator_exports::{Place, check_import, combine_import_size};
use wasm_module_validator_type_list::TypeList;
use wasm_sections_items::imports::{ExternalKind, TypeRef};
use wasm_types::Result;

// How many items there are, where there are fewer than so many.
fn counted<T>(items: &[T], most: u32) -> u32
    requires { length items.now < most }
    ensures { result ≡ length items.now }
{
    items.len() as u32
}

// What is imported by a type.
fn kind_of_type(ty: &TypeRef) -> ExternalKind
    ensures { result ≡ kind_of ty.now }
{
    match ty {
        TypeRef::Func(_) => ExternalKind::Func,
        TypeRef::FuncExact(_) => ExternalKind::FuncExact,
        TypeRef::Table(_) => ExternalKind::Table,
        TypeRef::Memory(_) => ExternalKind::Memory,
        TypeRef::Global(_) => ExternalKind::Global,
        TypeRef::Tag(_) => ExternalKind::Tag,
    }
}

impl ModuleState {
    // The index that an import will have, where there is room for it.
    fn next_index(&self, ty: &TypeRef) -> u32
        requires { HasRoomFor ty.now self.now.spaces }
        ensures { result ≡ next_index ty.now self.now.spaces }
    {
        let settings = self.settings();
        let limits = settings.limits();
        match ty {
            TypeRef::Func(_) => self.module.function_count(),
            TypeRef::FuncExact(_) => self.module.function_count(),
            TypeRef::Table(_) => counted(self.module.tables(), settings.max_tables()),
            TypeRef::Memory(_) => counted(self.module.memories(), settings.max_memories()),
            TypeRef::Global(_) => counted(self.module.globals(), limits.globals),
            TypeRef::Tag(_) => counted(self.module.tags(), limits.tags),
        }
    }

    // Where an import will stand.
    fn next_place(&self, ty: &TypeRef) -> Place
        requires { HasRoomFor ty.now self.now.spaces }
        ensures { result ≡ next_place ty.now self.now.spaces }
    {
        Place {
            kind: kind_of_type(ty),
            index: self.next_index(ty),
        }
    }

    // The type of an import, which becomes one over ids.
    fn check_import_type(&self, ty: &mut TypeRef, types: &TypeList, offset: u64) -> Result<()>
        requires { IsReadOver types.now.groups self.now.spaces }
        ensures answer { Tells result (IsValidImport self.now.spaces.settings
            (context_of types.now.groups self.now.spaces) ty.old) }
        ensures named { OnOk result (IsNamedImport (meaning_of types.now.groups self.now.spaces) ty.old ty.new) }
        ensures refused { IfErr result (λ e. IsRefusal self.now.spaces.settings.features
            (λ b. IsValidImport (allowing b self.now.spaces.settings)
            (context_of types.now.groups self.now.spaces) ty.old) e.kind) }
        ensures at { IfErr result (λ e. e.offset ≡ offset) }
    {
        check_import(&self.resources(types), ty, &self.settings(), offset)
    }

    // Whether there is room for one more.
    fn check_import_room(&self, ty: &TypeRef, offset: u64) -> Result<()>
        ensures answer { Tells result (HasRoomFor ty.now self.now.spaces) }
        ensures refused { IfErr result (λ e. (e.kind ≡ Other) × (e.offset ≡ offset)) }
    {
        match ty {
            TypeRef::Func(_) => self.check_function_count(1, offset),
            TypeRef::FuncExact(_) => self.check_function_count(1, offset),
            TypeRef::Table(_) => self.check_table_count(1, offset),
            TypeRef::Memory(_) => self.check_memory_count(1, offset),
            TypeRef::Global(_) => self.check_global_count(1, offset),
            TypeRef::Tag(_) => self.check_tag_count(1, offset),
        }
    }

    // The sum of sizes with that of an import's type.
    fn combine_import(&self, ty: &TypeRef, types: &TypeList, offset: u64) -> Result<u32>
        requires { IsReadOver types.now.groups self.now.spaces }
        ensures answer { Tells result (self.now.type_size + import_size
            (context_of types.now.groups self.now.spaces) ty.now < self.now.spaces.settings.limits.type_size) }
        ensures sum { IfOk result (λ all. all ≡ self.now.type_size + import_size
            (context_of types.now.groups self.now.spaces) ty.now) }
        ensures refused { IfErr result (λ e. (e.kind ≡ Other) × (e.offset ≡ offset)) }
    {
        combine_import_size(
            &self.resources(types),
            self.type_size,
            ty,
            &self.settings(),
            offset,
        )
    }

    // Adds an import that was checked, its type over ids.
    fn push_import(&mut self, ty: &TypeRef, offset: u64) -> Result<()>
        requires typed { HasItsType ty.now self.old.spaces }
        requires room { HasRoomFor ty.now self.old.spaces }
        ensures added { OnOk result (self.new ≡ record self.old { spaces = importing ty.now self.old.spaces }) }
        ensures stays { OnErr result (self.new ≡ self.old) }
        ensures refused { IfErr result (λ e. e.kind ≡ OutOfMemory) }
    {
        match ty {
            TypeRef::Func(type_index) => self.module.import_function(*type_index, false, offset),
            TypeRef::FuncExact(type_index) => {
                self.module.import_function(*type_index, true, offset)
            }
            TypeRef::Table(ty) => {
                let most = self.settings().max_tables();
                self.module.add_table(*ty, most, offset)
            }
            TypeRef::Memory(ty) => {
                let most = self.settings().max_memories();
                self.module.add_memory(*ty, most, offset)
            }
            TypeRef::Global(ty) => self.module.import_global(*ty, offset),
            TypeRef::Tag(ty) => self.module.add_tag(ty.func_type_idx, offset),
        }
    }

    /// Adds an import, by its names and its type as the module writes it.
    ///
    /// # Errors
    ///
    /// The type is not valid; there is no room for one more of what is imported; or the sizes of types pass their limit: the first of
    /// these in that order, at `offset`. The last two are of kind `Other`. The state stays then; where memory is refused, the import may be
    /// found by its names though its space does not have it.
    pub fn add_import(
        &mut self,
        module: &str,
        name: &str,
        ty: TypeRef,
        types: &TypeList,
        offset: u64,
    ) -> Result<()>
        requires { IsReadOver types.now.groups self.old.spaces }
        ensures answer { Tells result (IsImportable types.now.groups self.old ty) }
        ensures imported { OnOk result (IsImported types.now.groups
            (record { module_name = «module».now; field_name = name.now; ty = ty }) self.old self.new) }
        ensures read { IsReadOver types.now.groups self.new.spaces }
        ensures stays { IfErr result (λ e. UnlessMemory e.kind (self.new ≡ self.old)) }
        ensures left { OnErr result (IsLeft (record { module_name = «module».now; field_name = name.now; ty = ty })
            self.old self.new) }
        ensures refused { IfErr result (λ e. UnlessMemory e.kind (e.offset ≡ offset)) }
        ensures kind { IfErr result (λ e. UnlessMemory e.kind (IsRefusedBy self.old.spaces.settings.features
            (λ b. IsValidImport (allowing b self.old.spaces.settings) (context_of types.now.groups self.old.spaces) ty)
            (IsValidImport self.old.spaces.settings (context_of types.now.groups self.old.spaces) ty) e.kind)) }
    {
        let mut named = ty;
        match self.check_import_type(&mut named, types, offset) {
            Ok(()) => (),
            Err(error) => return Err(error),
        }
        match self.check_import_room(&named, offset) {
            Ok(()) => (),
            Err(error) => return Err(error),
        }
        let type_size = match self.combine_import(&ty, types, offset) {
            Ok(type_size) => type_size,
            Err(error) => return Err(error),
        };
        let place = self.next_place(&ty);
        match self.imports.insert(module, name, place) {
            Ok(()) => (),
            Err(error) => return Err(error),
        }
        match self.push_import(&named, offset) {
            Ok(()) => (),
            Err(error) => return Err(error),
        }
        self.type_size = type_size;
        Ok(())
    }
}
