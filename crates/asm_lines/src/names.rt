//! The labels of the lines so far, and the names that they mention.

ghost use Rattle.std.specs.Prelude.{ℕ, List, [], ◌∷◌, ◌++◌, OnOk};
ghost use Rattle.std.specs.List.{flat_map};
ghost use Rattle.asm_lines.specs.Drafts.{AreNames};
ghost use Rattle.asm_lines.specs.Names.{value_names, reference_names, item_names, global_names};

use crate::name_map::NameMap;
use ppc_text::{Item, Reference, Value, Word};
use std::alloc::{AllocError, Global};

/// A label: a name for an offset in a section.
#[derive(Drop)]
pub struct Label<'a> {
    /// The label's name.
    pub name: Word<'a>,
    /// Its section: 0 for text, 1 for data.
    pub section: u32,
    /// Its offset in the section, in bytes.
    pub offset: u32,
}

/// The names of the lines so far. In each map only the names count; the numbers are 0.
#[derive(Drop)]
pub struct Names<'a> {
    /// All names, in the order in which they are first mentioned. A label and a `.globl` mention their name too.
    pub entries: Vec<Word<'a>>,
    /// All names, as a map.
    pub mentioned: NameMap<'a>,
    /// The names of labels.
    pub labelled: NameMap<'a>,
    /// The global names.
    pub global: NameMap<'a>,
}

impl<'a> Names<'a> {
    /// No names.
    pub fn new(alloc: Global) -> Names<'a>
        ensures { AreNames result [] [] [] }
    {
        let entries = Vec::new(alloc);
        let mentioned = NameMap::new(alloc);
        let labelled = NameMap::new(alloc);
        let global = NameMap::new(alloc);
        Names {
            entries,
            mentioned,
            labelled,
            global,
        }
    }

    /// Adds a name. The error of this function and of those below is that host memory ran out.
    pub fn mention(&mut self, name: &Word<'a>) -> Result<(), AllocError>
        ensures { OnOk result ((all labelled global : List (List ℕ)) → AreNames self.old all labelled global
            → AreNames self.new (all ++ name.now ∷ []) labelled global) }
    {
        if self.mentioned.has(name.bytes()) {
            return Ok(());
        }
        self.entries.push(name.again())?;
        self.mentioned.set(name.bytes(), 0)?;
        Ok(())
    }

    /// Adds a name, and makes it global.
    pub fn make_global(&mut self, name: &Word<'a>) -> Result<(), AllocError>
        ensures { OnOk result ((all labelled global : List (List ℕ)) → AreNames self.old all labelled global
            → AreNames self.new (all ++ name.now ∷ []) labelled (global ++ name.now ∷ [])) }
    {
        self.mention(name)?;
        self.global.set(name.bytes(), 0)?;
        Ok(())
    }

    /// Adds a name, and makes it a label.
    pub fn define(&mut self, name: &Word<'a>) -> Result<(), AllocError>
        ensures { OnOk result ((all labelled global : List (List ℕ)) → AreNames self.old all labelled global
            → AreNames self.new (all ++ name.now ∷ []) (labelled ++ name.now ∷ []) global) }
    {
        self.mention(name)?;
        self.labelled.set(name.bytes(), 0)?;
        Ok(())
    }

    fn mention_value(&mut self, value: &Value<'a>) -> Result<(), AllocError>
        ensures { OnOk result ((all labelled global : List (List ℕ)) → AreNames self.old all labelled global
            → AreNames self.new (all ++ value_names value.now) labelled global) }
    {
        match value {
            Value::Number(_) => Ok(()),
            Value::Address(reference) => {
                self.mention(&reference.symbol)?;
                Ok(())
            }
        }
    }

    fn mention_values(&mut self, values: &[Value<'a>]) -> Result<(), AllocError>
        ensures { OnOk result ((all labelled global : List (List ℕ)) → AreNames self.old all labelled global
            → AreNames self.new (all ++ flat_map value_names values.now) labelled global) }
    {
        for value in values {
            self.mention_value(value)?;
        }
        Ok(())
    }

    fn mention_reference(&mut self, reference: &Option<Reference<'a>>) -> Result<(), AllocError>
        ensures { OnOk result ((all labelled global : List (List ℕ)) → AreNames self.old all labelled global
            → AreNames self.new (all ++ reference_names reference.now) labelled global) }
    {
        match reference {
            Some(reference) => {
                self.mention(&reference.symbol)?;
                Ok(())
            }
            None => Ok(()),
        }
    }

    /// Adds the names that an item mentions, and makes the name of a `.globl` global.
    #[tactic(auto, unfolding(crate::specs::Names::item_names))]
    pub fn mention_item(&mut self, item: &Item<'a>) -> Result<(), AllocError>
        ensures { OnOk result ((all labelled global : List (List ℕ)) → AreNames self.old all labelled global
            → AreNames self.new (all ++ item_names item.now) labelled (global ++ global_names item.now)) }
    {
        match item {
            Item::Global(name) => {
                self.make_global(name)?;
                Ok(())
            }
            Item::Long(values) => {
                self.mention_values(values.as_slice())?;
                Ok(())
            }
            Item::Instruction(insn) => {
                self.mention_reference(&insn.reference)?;
                Ok(())
            }
            _ => Ok(()),
        }
    }
}
