//! The checked table, and what it says of its nodes and variables.
ghost use Rattle.std.specs.Prelude.{◌≡◌, true, length, IfOk, IfErr, Ok, Err};
ghost use Rattle.table.specs.Sound.{is_option, is_sound, known, verdict};
ghost use Rattle.table.specs.Nodes.{shapes, roles_of};
ghost use Rattle.table.specs.Sets.{mentions_of, OptionSet};
ghost use Rattle.table.specs.Check.{check_says, counts_within, options_within};
ghost use Rattle.table.specs.Circuit.{about};

use crate::check::check;
use crate::fault::Fault;
use crate::sets::{Mentions, contains, is_known};
use text::record::{Node, Role, Variables};

/// A table whose circuit is sound. The child numbers stand behind each other, node by node; the
/// sets of variables that the nodes mention are worked out once, by the check.
#[derive(Drop)]
pub struct Table<'a> {
    pub nodes: &'a [Node],
    pub children: &'a [u16],
    pub variables: Variables,
    pub mentions: Mentions,
    ghost counts: { counts_within variables nodes.now ≡ true },
    ghost few: { options_within variables ≡ true },
    ghost sound: { is_sound (verdict (roles_of variables) (shapes children.now nodes.now)) ≡ true },
    ghost mentioned: { mentions ≡ mentions_of (length (roles_of variables)) (shapes children.now nodes.now) },
}

impl<'a> Table<'a> {
    ghost use Rattle.table.specs.Whole.{IsCheckedTable, circuit, roles};

    /// The table of these parts, or the first refusal that fits.
    #[inline(always)]
    pub fn check(
        nodes: &'a [Node],
        children: &'a [u16],
        variables: Variables,
    ) -> Result<Table<'a>, Fault>
        ensures table { IfOk result (IsCheckedTable nodes.now children.now variables) }
        ensures fault { IfErr result (λ f. check_says variables nodes.now children.now ≡ Err f) }
    {
        let mentions = check(nodes, children, &variables)?;
        Ok(Table::new(nodes, children, variables, mentions))
    }

    /// The table of parts that the check accepts.
    pub fn new(
        nodes: &'a [Node],
        children: &'a [u16],
        variables: Variables,
        mentions: Mentions,
    ) -> Table<'a>
        requires { check_says variables nodes.now children.now ≡ Ok mentions }
        ensures nodes { result.nodes.now ≡ nodes.now }
        ensures children { result.children.now ≡ children.now }
        ensures variables { result.variables ≡ variables }
        ensures mentions { result.mentions ≡ mentions }
    {
        Table {
            nodes,
            children,
            variables,
            mentions,
        }
    }

    /// Whether a number is that of one of the table's variables.
    pub fn has_variable(&self, variable: u16) -> bool
        ensures { result ≡ known (length (roles self.now)) variable }
    {
        is_known(variable, self.variables.as_slice().len())
    }

    /// Whether a node mentions a variable.
    pub fn does_mention(&self, node: usize, variable: u16) -> bool
        ensures { result ≡ about (circuit self.now) node variable }
    {
        node < self.nodes.len()
            && self.has_variable(variable)
            && contains(self.mentions.sets[node], variable)
    }

    /// Whether a variable is one of the table's options.
    pub fn has_option(&self, variable: u16) -> bool
        ensures { result ≡ is_option (roles self.now) variable }
    {
        self.has_variable(variable)
            && self.variables.as_slice()[variable as usize - 1].role == Role::Option
    }

    /// The set of the options.
    pub fn option_set(&self) -> u64
        ensures { OptionSet (roles self.now) result }
    {
        self.variables.as_slice().iter().rev().fold(
            0,
            |set, variable| set << 1 | u64::from(variable.role == Role::Option),
        )
    }
}
