//! What the header line and a variable line say.
ghost use Rattle.std.specs.Prelude.{◌≡◌, [], drop, slice_index_or};
ghost use Rattle.text.specs.Lines.{fields};
ghost use Rattle.text.specs.Format.{number_field, header_says, role_of, follows_rules, variable_says, listed, Rooms};

use crate::fault::Reason;
use crate::fields::{field, field_count};
use crate::numeral::read_number;
use crate::record::{Header, Name, Role, Variable, Variables};

/// The number in the field `k` of a line.
pub fn number_field(line: &[u8], k: usize) -> Result<u16, Reason>
    ensures { result ≡ number_field (slice_index_or (fields line.now) k []) }
{
    read_number(field(line, k)).ok_or(Reason::Number)
}

/// The header line, with the lengths of the two stores.
#[tactic(auto, unfolding(crate::specs::Format::header_says))]
pub(crate) fn header_line(
    line: &[u8],
    node_room: usize,
    child_room: usize,
) -> Result<Header, Reason>
    ensures { result ≡ header_says (record { nodes = node_room; children = child_room }) (drop 1 (fields line.now)) }
{
    if field_count(line) != 4 {
        return Err(Reason::Line);
    }
    let variables = number_field(line, 1)?;
    let nodes = number_field(line, 2)?;
    let children = number_field(line, 3)?;
    if variables < 1 || variables > 64 || nodes < 1 || nodes > 4096 || children > 12288 {
        return Err(Reason::Limit);
    }
    if node_room < nodes as usize || child_room < children as usize {
        return Err(Reason::Store);
    }
    Ok(Header {
        variables,
        nodes,
        children,
    })
}

/// The role that the letter of a variable line gives.
pub(crate) fn role(letter: &[u8]) -> Option<Role>
    ensures { result ≡ role_of letter.now }
{
    match letter {
        b"E" => Some(Role::Option),
        b"R" => Some(Role::Chance),
        _ => None,
    }
}

/// Whether a variable follows the rules, after the variables before it.
#[tactic(auto, using(crate::proofs::Says::options_within))]
fn follows_rules(before: &Variables, number: u16, role: Role, name: &[u8]) -> bool
    ensures { result ≡ follows_rules (listed before.now) number role name.now }
{
    let due = before.as_slice().len() + 1;
    let options = before.options() + usize::from(role == Role::Option);
    number as usize == due
        && name.len() >= 1
        && name.len() <= 24
        && !before.is_named(name)
        && options <= 20
}

/// A variable line, after the variables before it.
#[tactic(auto, using(crate::proofs::Says::four), unfolding(crate::specs::Format::variable_says))]
pub(crate) fn variable_line(line: &[u8], before: &Variables) -> Result<Variable, Reason>
    ensures { result ≡ variable_says (listed before.now) (drop 1 (fields line.now)) }
{
    if field_count(line) != 4 {
        return Err(Reason::Line);
    }
    let number = number_field(line, 1)?;
    let role = role(field(line, 2)).ok_or(Reason::Variable)?;
    let name = field(line, 3);
    if !follows_rules(before, number, role, name) {
        return Err(Reason::Variable);
    }
    Ok(Variable {
        role,
        name: Name::new(name),
    })
}
