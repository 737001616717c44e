//! Files, from their short form.
ghost use Rattle.std.specs.Prelude.{◌≡◌, [], ◌∷◌, take, IfOk, string_bytes};

use std::alloc::{AllocError, Global};

/// Plant K, with its weight text: one option, one chance.
pub const PLANT: &str = "\
G\t2\t7\t6
V\t1\tE\tfree cooling
V\t2\tR\thot day
L\t2
L\t-1
A\t0\t1
L\t-2
L\t1
A\t3\t4
O\t2\t2\t5
W\t2\t3\t7
";

/// The roles of `BLOCKS`.
pub const BLOCK_ROLES: &str = "EEEERRRR";

/// Two blocks under an and: options 1 and 2 with chances 5 and 6, options 3 and 4 with 7 and 8.
pub const BLOCKS: &str = "\
L 5/L -5/L 6/L -6/O 6 2 3/L 1/L -1/L 2/L -2/\
A 0 6 4/A 5 2/A 6 7 3/O 1 10 11/A 1 12/O 5 9 13/\
L 7/L -7/L 8/L -8/L 3/L -3/L 4/L -4/\
A 17 19/A 18 20 21/O 8 23 24/A 15 25/A 17 22/A 18 21/O 8 27 28/A 16 29/O 7 26 30/\
A 14 31";

fn variable_lines(roles: &str, heap: Global) -> Result<String, AllocError> {
    let mut lines = String::new(heap);
    for (number, role) in (1usize..).zip(roles.chars()) {
        write!(lines, "V\t{number}\t{role}\tname {number}\n")?;
    }
    Ok(lines)
}

// How many nodes and children there are: behind an L or an O the first number is a variable's.
fn counts(nodes: &str) -> (usize, usize) {
    let count = nodes.split('/').count();
    let numbers = nodes.chars().filter(|c| *c == ' ').count();
    let variables = nodes.chars().filter(|c| matches!(*c, 'L' | 'O')).count();
    (count, numbers.wrapping_sub(variables))
}

/// The file with variables of these roles (a letter for each) and with these nodes: a space for a
/// tab, a slash between two lines.
pub fn file(roles: &str, nodes: &str, heap: Global) -> Result<String, AllocError>
    ensures { IfOk result (λ s. take 2 (string_bytes s) ≡ 71 ∷ 9 ∷ []) }
{
    let variables = roles.len();
    let (count, children) = counts(nodes);
    let lines = variable_lines(roles, heap)?;
    let tabbed = nodes.replace(heap, " ", "\t")?;
    let broken = tabbed.as_str().replace(heap, "/", "\n")?;
    format!(in heap; "G\t{variables}\t{count}\t{children}\n{lines}{broken}\n")
}
