//! The reader of a table file.
ghost use Rattle.std.specs.Prelude.{◌≡◌, true, IfOk};
ghost use Rattle.std.specs.List.{list_all};
ghost use Rattle.text.specs.Format.{reading_of, overwritten, listed, named_printable, AsMany};

use crate::fault::Fault;
use crate::progress::Progress;
use crate::record::{Contents, Node};

/// Reads a table file: fills the two stores from their first place on, and answers the variables,
/// the counts and the place where the weight text begins, or the first refusal that fits.
pub fn read_table(file: &[u8], nodes: &mut [Node], children: &mut [u16]) -> Result<Contents, Fault>
    ensures answer { result ≡ (reading_of file.now nodes.old children.old).answer }
    ensures nodes { nodes.new ≡ overwritten (reading_of file.now nodes.old children.old).nodes nodes.old }
    ensures children { children.new ≡ overwritten (reading_of file.now nodes.old children.old).children children.old }
    ensures counts { IfOk result (λ c. AsMany (reading_of file.now nodes.old children.old) c) }
    ensures names { IfOk result (λ c. list_all named_printable (listed c.variables) ≡ true) }
{
    if file.len() < 1 || file.len() > 65536 {
        return Err(Fault::Length);
    }
    let mut progress = Progress::new(nodes, children);
    while !progress.is_complete() {
        let line = progress.line;
        progress
            .take_next(file)
            .map_err(|reason| Fault::Line { reason, line })?;
    }
    Ok(Contents {
        variables: progress.variables,
        nodes: progress.header.nodes,
        children: progress.header.children,
        weights: progress.place,
    })
}
