//! Findings: where a hierarchy breaks a rule.
ghost use Rattle.std.specs.Prelude.{◌≡◌};
ghost use Rattle.cg_tree.specs.Finding.{rule_word};

/// A rule for the controllers that a `cgroup.subtree_control` names (cgroup-v2.rst, "Controlling Controllers").
#[derive(Clone, Copy, Debug, PartialEq, Eq)]
pub enum Rule {
    /// They are among those of `cgroup.controllers` of the same group ("Enabling and Disabling").
    C1,
    /// They are among those of `cgroup.subtree_control` of the parent group ("Top-down Constraint").
    C2,
    /// They are threaded, where the group is of a domain type and has processes ("No Internal Process Constraint").
    C3,
}

impl Rule {
    /// The word of the rule, as it is printed. It takes no memory.
    pub fn name(self) -> &'static str
        ensures { result.now ≡ rule_word self }
    {
        match self {
            Rule::C1 => "C1",
            Rule::C2 => "C2",
            Rule::C3 => "C3",
        }
    }
}

/// A word of a `cgroup.subtree_control` that breaks a rule. Places count from 0.
#[derive(Clone, Copy, Debug, PartialEq, Eq)]
pub struct Finding {
    pub rule: Rule,
    /// The place of the `cgroup.subtree_control` among the entries.
    pub at: usize,
    /// The place of the entry that it doesn't go with.
    pub other: usize,
    /// The place of the word among those of the `cgroup.subtree_control`.
    pub word: usize,
}
