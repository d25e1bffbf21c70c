//! All rules, in order.

ghost use Rattle.std.specs.Prelude.{◌≡◌};
ghost use Rattle.elf_read.specs.Rules.{checked};

use crate::error::ElfErr;
use crate::header_rules::{check_headers, check_ident, check_length, check_machine, check_type};
use crate::relocation_rules::{check_relocations, check_tables};
use crate::section_rules::{SectionRule, check_sections, check_strings};
use crate::symbol_rules::{check_symbols, check_symtabs};
use crate::tables::symtab;

/// Checks all rules of an object file in order. The first rule that fails is the refusal. It takes
/// no memory, and time for each byte and entry of the file.
#[tactic(auto, unfolding(crate::specs::Rules::checked))]
pub fn check(bytes: &[u8]) -> Result<(), ElfErr>
    ensures { result ≡ checked bytes.now }
{
    check_length(bytes)?;
    check_ident(bytes)?;
    check_machine(bytes)?;
    check_type(bytes)?;
    check_headers(bytes)?;
    check_sections(bytes, SectionRule::Content)?;
    check_strings(bytes)?;
    check_sections(bytes, SectionRule::Name)?;
    check_sections(bytes, SectionRule::Load)?;
    let table = symtab(bytes);
    check_symtabs(bytes, table)?;
    check_symbols(bytes, table)?;
    check_tables(bytes, table)?;
    check_relocations(bytes, table)?;
    Ok(())
}
