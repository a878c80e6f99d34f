//! The findings of a hierarchy.
ghost use Rattle.std.specs.Prelude.{◌≡◌, ◌++◌, IfOk, OnOk, map};
ghost use Rattle.std.specs.List.{flat_map, list_any};
ghost use Rattle.cg_index.specs.Cells.{item_of};
ghost use Rattle.cg_tree.specs.Find.{words_of, is_among, threaded, allows, lacking, is_domain, find};
ghost use Rattle.cg_tree.specs.Directory.{name_of};
ghost use Rattle.cg_tree.specs.FindLaws.{IsHierarchyOf, looked_up};
ghost use Rattle.cg_tree.specs.Ruled.{is_ruled};

use crate::files::{File, Index, named};
use crate::finding::{Finding, Rule};
use cg_index::Cell;
use cg_text::{Key, OutOfMemory};
use cg_value::{Entry, GroupMode, Value};
use std::alloc::Global;

/// The words of a value of words, each in its cell. Another value has none.
fn words_of(value: &Value) -> &[Cell<Key>]
    ensures { map item_of result.now ≡ words_of value.now }
{
    match value {
        Value::Words(words) => words.cells(),
        _ => &[],
    }
}

/// Whether the word is one of those of the value.
fn has_word(value: &Value, word: &[u8]) -> bool
    ensures { result ≡ is_among word.now (words_of value.now) }
{
    match value {
        Value::Words(words) => words.find(word).is_some(),
        _ => false,
    }
}

/// Whether the word names a threaded controller.
fn is_threaded(word: &[u8]) -> bool
    ensures { result ≡ is_among word.now threaded }
{
    word == b"cpu".as_slice()
        || word == b"cpuset".as_slice()
        || word == b"perf_event".as_slice()
        || word == b"pids".as_slice()
}

/// Whether the rule lets the word stand beside the other file.
fn allows(rule: Rule, other: &File<'_>, word: &[u8]) -> bool
    ensures { result ≡ allows rule other.now word.now }
{
    match rule {
        Rule::C1 | Rule::C2 => has_word(other.value, word),
        Rule::C3 => is_threaded(word),
    }
}

/// Adds a finding for each word of the control that the rule doesn't let stand beside the other file.
fn report(
    found: &mut Vec<Finding>,
    rule: Rule,
    control: &File<'_>,
    other: &File<'_>,
) -> Result<(), OutOfMemory>
    ensures { OnOk result (found.new.items ≡ found.old.items ++ lacking rule control.now other.now) }
{
    for (word, cell) in words_of(control.value).iter().enumerate() {
        if !allows(rule, other, cell.item.bytes()) {
            found.push(Finding {
                rule,
                at: control.place,
                other: other.place,
                word,
            })?;
        }
    }
    Ok(())
}

/// The same beside each of the others.
fn report_all(
    found: &mut Vec<Finding>,
    rule: Rule,
    control: &File<'_>,
    others: &[File<'_>],
) -> Result<(), OutOfMemory>
    ensures { OnOk result (found.new.items ≡ found.old.items ++ flat_map (lacking rule control.now) others.now) }
{
    for other in others {
        report(found, rule, control, other)?;
    }
    Ok(())
}

/// Whether one of these is the type of a domain that is valid.
fn has_domain(types: &[File<'_>]) -> bool
    ensures { result ≡ list_any is_domain types.now }
{
    for file in types {
        match file.value {
            Value::Mode(GroupMode::Domain | GroupMode::DomainThreaded) => return true,
            _ => {}
        }
    }
    false
}

/// The files that the rules speak of, of each name.
#[derive(Drop)]
pub(crate) struct Hierarchy<'a> {
    controllers: Index<'a>,
    controls: Index<'a>,
    processes: Index<'a>,
    types: Index<'a>,
}

impl<'a> Hierarchy<'a> {
    /// Those of the entries.
    fn new(alloc: Global, entries: &'a [Entry]) -> Result<Hierarchy<'a>, OutOfMemory>
        ensures { IfOk result (λ hierarchy. IsHierarchyOf entries.now hierarchy) }
    {
        Ok(Hierarchy {
            controllers: Index::new(alloc, entries, b"cgroup.controllers")?,
            controls: Index::new(alloc, entries, b"cgroup.subtree_control")?,
            processes: Index::new(alloc, entries, b"cgroup.procs")?,
            types: Index::new(alloc, entries, b"cgroup.type")?,
        })
    }

    /// Adds what one `cgroup.subtree_control` breaks.
    fn check(&self, found: &mut Vec<Finding>, control: &File<'a>) -> Result<(), OutOfMemory>
        ensures { OnOk result (found.new.items ≡ found.old.items ++ looked_up self.now control.now) }
    {
        let directory = control.directory;
        report_all(found, Rule::C1, control, self.controllers.within(directory))?;
        report_all(found, Rule::C2, control, self.controls.above(directory))?;
        if has_domain(self.types.within(directory)) {
            report_all(found, Rule::C3, control, self.processes.within(directory))?;
        }
        Ok(())
    }
}

/// What the entries break: a finding for each `cgroup.subtree_control`, each rule, each entry beside it and each word
/// that the rule doesn't let stand there, in this order. `OutOfMemory` where no memory is left.
pub fn findings(alloc: Global, entries: &[Entry]) -> Result<Vec<Finding>, OutOfMemory>
    ensures { IfOk result (λ found. found.items ≡ find entries.now) }
{
    let hierarchy = Hierarchy::new(alloc, entries)?;
    let controls = named(alloc, entries, b"cgroup.subtree_control")?;
    let mut found = Vec::new(alloc);
    for control in &controls {
        hierarchy.check(&mut found, control)?;
    }
    Ok(found)
}

/// Whether the name is one of those that the rules speak of.
fn is_ruled_name(name: &[u8]) -> bool
    ensures { result ≡ is_ruled name.now }
{
    name == b"cgroup.controllers".as_slice()
        || name == b"cgroup.subtree_control".as_slice()
        || name == b"cgroup.procs".as_slice()
        || name == b"cgroup.type".as_slice()
}

/// Whether the rules speak of files of the entry's name. Other entries break nothing, and change nothing in what these
/// break. It takes no memory.
pub fn is_ruled(entry: &Entry) -> bool
    ensures { result ≡ is_ruled (name_of entry.now.path) }
{
    is_ruled_name(entry.name())
}
