//! The way from the standing holds to the branch that is open.
ghost use Rattle.std.specs.Prelude.{◌≡◌, ◌≤◌, length};
ghost use Rattle.search.specs.Walk.{back};

use passes::holds::Holds;

/// An option that is held to open a branch, and the side that it is held to.
#[derive(Clone, Copy, Debug, PartialEq, Eq)]
pub struct Branch {
    pub option: u16,
    pub on: bool,
}

/// Back to the last branch that is held on, and over to its off side: how many branches are left.
pub(crate) fn retreat(holds: &mut Holds, trail: &mut [Branch], depth: usize) -> usize
    requires { depth ≤ length trail.old }
    ensures depth { result ≡ (back trail.old depth holds.old.entries).0 }
    ensures trail { trail.new ≡ (back trail.old depth holds.old.entries).1 }
    ensures holds { holds.new.entries ≡ (back trail.old depth holds.old.entries).2 }
{
    for at in (0..depth).rev() {
        let branch = trail[at];
        if branch.on {
            trail[at] = Branch {
                option: branch.option,
                on: false,
            };
            holds.hold(branch.option, false);
            return at + 1;
        }
        holds.release(branch.option);
    }
    0
}
