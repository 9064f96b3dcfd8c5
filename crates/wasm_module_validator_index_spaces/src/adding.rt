//! What is added to a module: within its limit, and behind what is there.

ghost use Rattle.std.specs.Prelude.{◌≡◌, ◌⊎◌, ◌∷◌, ◌++◌, ◌+◌, ◌<◌, ◌≤◌, ◌^◌, [], IsTrue, false, Some, OnOk, OnErr, length};
ghost use Rattle.wasm_types.specs.decoding.Denials.{Tells, RefusedAt};
ghost use Rattle.wasm_types.specs.decoding.declared.error.ErrorKind.TheVariants.{Other};
ghost use Rattle.wasm_types.specs.Entries.{declared_types};
ghost use Rattle.wasm_types.specs.trees.ValidGroup.{IsValidGroup, types_of};
ghost use Rattle.wasm_module_validator_type_list.specs.List.{HasRoom};
ghost use Rattle.wasm_module_validator_canonical_types.specs.Written.{AreModuleIndices};
ghost use Rattle.wasm_module_validator_type_groups.specs.adding.Interned.{space_of, AreIdsKnown, written_group, kept_group, IsChecked, AddsGroup};
ghost use Rattle.wasm_module_validator_index_spaces.specs.Spaces.{id_at, own_function, imported_function, referring_to};

use crate::{Function, Module};
use wasm_module_validator_canonical_types::InternRecGroup;
use wasm_module_validator_checks::limits::too_many;
use wasm_module_validator_type_list::TypeList;
use wasm_types::{
    GlobalType, MemoryType, ModuleWords, RecGroup, RefType, Result, TableType, Words,
};

// One thing more, where there are fewer than this many.
fn push_within<X: Copy>(
    items: &mut Vec<X>,
    item: X,
    most: u32,
    name: Words,
    offset: u64,
) -> Result<()>
    ensures answer { Tells result (length items.old.items < most) }
    ensures added { OnOk result (items.new.items ≡ items.old.items ++ item ∷ []) }
    ensures stays { OnErr result (items.new.items ≡ items.old.items) }
    ensures at { RefusedAt offset result }
{
    if items.len() >= most as usize {
        return Err(too_many(most, name, offset));
    }
    items.push(item)?;
    Ok(())
}

impl Module {
    /// Adds a group of types, as `canonicalize_and_intern_rec_group` of `wasm_module_validator_type_groups` does; where the limit of
    /// types is to be tested, that comes before all else.
    ///
    /// # Errors
    ///
    /// Refused is a group with which there are more types than the limit, where that is tested; a group that is not valid behind the
    /// module's types; and one for which the list has no room. The module stays then; what is left of the list is said there.
    pub fn add_types(
        &mut self,
        rec_group: RecGroup,
        types: &mut TypeList,
        offset: u64,
        check_limit: bool,
    ) -> Result<()>
        requires can_intern { IsTrue types.old.can_intern }
        requires checked { IsChecked self.old.settings types.old.groups }
        requires known { AreIdsKnown types.old.groups self.old.types }
        requires short { check_limit ≡ false → length self.old.types + length (declared_types rec_group) < 2 ^ 32 }
        requires indices { AreModuleIndices (declared_types rec_group) }
        ensures answer { Tells result ((IsTrue check_limit → length self.old.types + length
            (declared_types rec_group) ≤ self.old.settings.limits.types)
            × IsValidGroup self.old.settings (space_of types.old.groups self.old.types) (written_group rec_group)
            × HasRoom types.old.groups (length (declared_types rec_group))) }
        ensures interned { OnOk result (AddsGroup types.old.groups types.new.groups self.old.types self.new.types
            (kept_group self.old.settings.features self.old.types (declared_types rec_group))) }
        ensures space { OnOk result (space_of types.new.groups self.new.types
            ≡ space_of types.old.groups self.old.types ++ types_of (space_of types.old.groups self.old.types) (written_group rec_group)) }
        ensures checked { OnOk result (IsChecked self.old.settings types.new.groups) }
        ensures known { OnOk result (AreIdsKnown types.new.groups self.new.types) }
        ensures added { self.new ≡ record self.old { types = self.new.types } }
        ensures stays { OnErr result (self.new ≡ self.old) }
        ensures list { OnErr result ((types.new.groups ≡ types.old.groups)
            ⊎ (types.new.groups ≡ kept_group self.old.settings.features self.old.types
            (declared_types rec_group) ∷ types.old.groups)) }
        ensures at { RefusedAt offset result }
        ensures can_intern { IsTrue types.new.can_intern }
        ensures limits { types.new.limits ≡ types.old.limits }
    {
        self.types.add_types(rec_group, types, offset, check_limit)
    }

    /// Adds a function that the module has itself, by the index of its type.
    ///
    /// # Errors
    ///
    /// As many functions as the limit are there: an error of kind `Other`, at `offset`.
    pub fn add_function(&mut self, type_index: u32, offset: u64) -> Result<()>
        requires { type_index < length self.old.types }
        ensures answer { Tells result (length self.old.functions < self.old.settings.limits.functions) }
        ensures added { OnOk result (self.new ≡ record self.old
            { functions = self.old.functions ++ own_function type_index ∷ [] }) }
        ensures stays { OnErr result (self.new ≡ self.old) }
        ensures at { RefusedAt offset result }
    {
        let most = self.types.limits().functions;
        let function = Function {
            type_index,
            is_exact: true,
            is_referenced: false,
        };
        push_within(
            &mut self.functions,
            function,
            most,
            Words::Module(ModuleWords::Functions),
            offset,
        )
    }

    /// Adds a function that is imported, exactly or not, by the index of its type.
    ///
    /// # Errors
    ///
    /// As many functions as the limit are there: an error of kind `Other`, at `offset`.
    pub fn import_function(&mut self, type_index: u32, is_exact: bool, offset: u64) -> Result<()>
        requires { type_index < length self.old.types }
        ensures answer { Tells result (length self.old.functions < self.old.settings.limits.functions) }
        ensures added { OnOk result (self.new
            ≡ record self.old {
              functions = self.old.functions ++ imported_function is_exact type_index ∷ [];
              imported_functions = self.old.imported_functions + 1;
            }) }
        ensures stays { OnErr result (self.new ≡ self.old) }
        ensures at { RefusedAt offset result }
    {
        let most = self.types.limits().functions;
        let function = Function {
            type_index,
            is_exact,
            is_referenced: false,
        };
        push_within(
            &mut self.functions,
            function,
            most,
            Words::Module(ModuleWords::Functions),
            offset,
        )?;
        self.imported_functions += 1;
        Ok(())
    }

    /// Adds a table, by the type of its elements over ids, where there are fewer than so many (`Settings::max_tables` of
    /// `wasm_module_validator_checks`).
    ///
    /// # Errors
    ///
    /// As many tables are there: an error of kind `Other`, at `offset`.
    pub fn add_table(&mut self, ty: TableType, most: u32, offset: u64) -> Result<()>
        ensures answer { Tells result (length self.old.tables < most) }
        ensures added { OnOk result (self.new ≡ record self.old { tables = self.old.tables ++ ty ∷ [] }) }
        ensures stays { OnErr result (self.new ≡ self.old) }
        ensures at { RefusedAt offset result }
    {
        push_within(
            &mut self.tables,
            ty,
            most,
            Words::Module(ModuleWords::Tables),
            offset,
        )
    }

    /// Adds a memory, where there are fewer than so many (`Settings::max_memories` of `wasm_module_validator_checks`).
    ///
    /// # Errors
    ///
    /// As many memories are there: an error of kind `Other`, at `offset`.
    pub fn add_memory(&mut self, ty: MemoryType, most: u32, offset: u64) -> Result<()>
        ensures answer { Tells result (length self.old.memories < most) }
        ensures added { OnOk result (self.new ≡ record self.old { memories = self.old.memories ++ ty ∷ [] }) }
        ensures stays { OnErr result (self.new ≡ self.old) }
        ensures at { RefusedAt offset result }
    {
        push_within(
            &mut self.memories,
            ty,
            most,
            Words::Module(ModuleWords::Memories),
            offset,
        )
    }

    /// Adds a global that the module has itself, its type over ids.
    ///
    /// # Errors
    ///
    /// As many globals as the limit are there: an error of kind `Other`, at `offset`.
    pub fn add_global(&mut self, ty: GlobalType, offset: u64) -> Result<()>
        ensures answer { Tells result (length self.old.globals < self.old.settings.limits.globals) }
        ensures added { OnOk result (self.new ≡ record self.old { globals = self.old.globals ++ ty ∷ [] }) }
        ensures stays { OnErr result (self.new ≡ self.old) }
        ensures at { RefusedAt offset result }
    {
        let most = self.types.limits().globals;
        push_within(
            &mut self.globals,
            ty,
            most,
            Words::Module(ModuleWords::Globals),
            offset,
        )
    }

    /// Adds a global that is imported, its type over ids.
    ///
    /// # Errors
    ///
    /// As many globals as the limit are there: an error of kind `Other`, at `offset`.
    pub fn import_global(&mut self, ty: GlobalType, offset: u64) -> Result<()>
        ensures answer { Tells result (length self.old.globals < self.old.settings.limits.globals) }
        ensures added { OnOk result (self.new ≡ record self.old
            { globals = self.old.globals ++ ty ∷ []; imported_globals = self.old.imported_globals + 1 }) }
        ensures stays { OnErr result (self.new ≡ self.old) }
        ensures at { RefusedAt offset result }
    {
        let most = self.types.limits().globals;
        push_within(
            &mut self.globals,
            ty,
            most,
            Words::Module(ModuleWords::Globals),
            offset,
        )?;
        self.imported_globals += 1;
        Ok(())
    }

    /// Adds a tag, by the index of its type.
    ///
    /// # Errors
    ///
    /// As many tags as the limit are there: an error of kind `Other`, at `offset`.
    pub fn add_tag(&mut self, type_index: u32, offset: u64) -> Result<()>
        requires { type_index < length self.old.types }
        ensures answer { Tells result (length self.old.tags < self.old.settings.limits.tags) }
        ensures added { OnOk result (self.new ≡ record self.old
            { tags = self.old.tags ++ id_at self.old.types type_index ∷ [] }) }
        ensures stays { OnErr result (self.new ≡ self.old) }
        ensures at { RefusedAt offset result }
    {
        let most = self.types.limits().tags;
        let id = self.types.type_ids()[type_index as usize];
        push_within(
            &mut self.tags,
            id,
            most,
            Words::Module(ModuleWords::Tags),
            offset,
        )
    }

    /// Adds an element segment, by the type of its elements over ids.
    ///
    /// # Errors
    ///
    /// As many element segments as the limit are there: an error of kind `Other`, at `offset`.
    pub fn add_element_segment(&mut self, ty: RefType, offset: u64) -> Result<()>
        ensures answer { Tells result (length self.old.elements < self.old.settings.limits.element_segments) }
        ensures added { OnOk result (self.new ≡ record self.old { elements = self.old.elements ++ ty ∷ [] }) }
        ensures stays { OnErr result (self.new ≡ self.old) }
        ensures at { RefusedAt offset result }
    {
        let most = self.types.limits().element_segments;
        push_within(
            &mut self.element_types,
            ty,
            most,
            Words::Module(ModuleWords::ElementSegments),
            offset,
        )
    }

    /// Notes how many data segments the data count section names.
    pub fn set_data_count(&mut self, count: u32)
        ensures { self.new ≡ record self.old { data_count = Some count } }
    {
        self.data_segments = Some(count);
    }

    /// Lets code refer to the function at an index, if there is one.
    pub fn refer_to_function(&mut self, at: u32)
        ensures { self.new ≡ record self.old { functions = referring_to at self.old.functions } }
    {
        let at = at as usize;
        if at < self.functions.len() {
            let mut function = self.functions[at];
            function.is_referenced = true;
            self.functions[at] = function;
        }
    }
}
