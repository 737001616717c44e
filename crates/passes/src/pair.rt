//! The pair pass: a value for every node, and its on and off value for each free option that it
//! mentions.
ghost use Rattle.std.specs.Prelude.{◌≡◌, ◌+◌, ◌*◌, ◌<◌, ◌≤◌, true, false, length, take, drop};
ghost use Rattle.std.specs.List.{list_all};
ghost use Rattle.table.specs.Sound.{is_option, options as options_of};
ghost use Rattle.table.specs.Whole.{circuit, roles};
ghost use Rattle.passes.specs.NodeReads.{has_part, ranged_in, readable_in};
ghost use Rattle.passes.specs.Open.{FreeOptions, OpenOptions};
ghost use Rattle.passes.specs.Places.{stride, pair_places};
ghost use Rattle.passes.specs.Problem.{problem};
ghost use Rattle.passes.specs.Rows.{open_in, lower, part_in};
ghost use Rattle.passes.specs.Written.{pairs_left};

use crate::places::stride;
use crate::plain::Plain;
use crate::query::Query;
use crate::values::NodeValues;
use kinds::figure::{Figure, greater, lesser};
use table::sets::contains;
use table::table::Table;
use text::record::{Form, Node, Role};

/// A node's figure with an option on, and with it off.
#[derive(Clone, Copy)]
struct Sides<K> {
    on: K,
    off: K,
}

/// An option, and where its on value stands in a part. Its off value stands behind that.
#[derive(Clone, Copy)]
struct Placed {
    variable: u16,
    place: usize,
}

/// The step at one node: the query, its options by rising number, the values of the nodes before
/// it, the node's number, and the set of the free options that it mentions.
#[derive(Drop)]
struct Step<'a, 'b, 'c, K> {
    query: &'a Query<'a, K>,
    options: &'b [u16],
    values: NodeValues<'c, K>,
    node: usize,
    free: u64,
    ghost listed: { options.now ≡ options_of (roles query.now.table.now) },
    ghost stride: { values.stride ≡ stride (roles query.now.table.now) },
    ghost inside: { node < length query.now.table.now.nodes.now },
    ghost before: { length values.places.now ≡ node * values.stride },
    ghost set: { OpenOptions (problem query.now) node free },
}

impl<K: Figure> Step<'_, '_, '_, K> {
    ghost use Rattle.passes.specs.PairStep.{under_here, product_here, side_by_record, side_here, row_here, least_here};

    /// Whether the node has values for an option: the option is free, and the node mentions it.
    fn is_open(&self, option: u16) -> bool
        requires { is_option (roles self.now.query.now.table.now) option ≡ true }
        ensures { result ≡ open_in (problem self.now.query.now) self.now.node option }
    {
        contains(self.free, option)
    }

    /// A child's figure under an option on and off: the lesser of its value and of its value on that
    /// side if it mentions the option, else its value.
    fn under(&self, option: Placed, child: u16) -> Sides<K>
        requires place { option.place + 1 < self.now.values.stride }
        requires inside { has_part self.now.values child ≡ true }
        ensures on { result.on ≡ under_here K.ring self.now option.variable option.place child }
        ensures off { result.off ≡ under_here K.ring self.now option.variable (option.place + 1) child }
    {
        let value = self.values.value(child);
        if !self
            .query
            .table
            .does_mention(child as usize, option.variable)
        {
            return Sides {
                on: value,
                off: value,
            };
        }
        let place = child as usize * self.values.stride + option.place;
        Sides {
            on: lesser(value, self.values.places[place]),
            off: lesser(value, self.values.places[place + 1]),
        }
    }

    /// The products of the children's figures under an option.
    fn product_under(&self, option: Placed, children: &[u16]) -> Sides<K>
        requires place { option.place + 1 < self.now.values.stride }
        requires inside { list_all (has_part self.now.values) children.now ≡ true }
        ensures on { result.on ≡ product_here K.ring self.now option.variable option.place children.now }
        ensures off { result.off ≡ product_here K.ring self.now option.variable (option.place + 1) children.now }
    {
        // A loop, as in `NodeValues::product`.
        let mut on = K::one();
        let mut off = K::one();
        for child in children {
            let sides = self.under(option, *child);
            on = on.times(sides.on);
            off = off.times(sides.off);
        }
        Sides { on, off }
    }

    /// A node's on and off value for an option that it mentions: its literal counts one, the other
    /// literal zero.
    fn node_sides(&self, option: Placed, node: Node) -> Sides<K>
        requires place { option.place + 1 < self.now.values.stride }
        requires ranged { ranged_in self.now.query.now.table.now node ≡ true }
        requires readable { readable_in self.now.query.now.table.now self.now.values node ≡ true }
        ensures on { result.on ≡ side_by_record K.ring self.now true option.variable option.place node }
        ensures off { result.off ≡ side_by_record K.ring self.now false option.variable (option.place + 1) node }
    {
        let children = self.query.table.children;
        let first = node.first as usize;
        match node.form {
            Form::Literal { variable: _, on } => Sides {
                on: if on { K::one() } else { K::zero() },
                off: if on { K::zero() } else { K::one() },
            },
            Form::And => {
                self.product_under(option, &children[first..first + node.count as usize])
            }
            Form::Fork { variable } => {
                let on = self.under(option, children[first]);
                let off = self.under(option, children[first + 1]);
                Sides {
                    on: self.query.join(variable, on.on, off.on),
                    off: self.query.join(variable, on.off, off.off),
                }
            }
            Form::True | Form::False => Sides {
                on: K::zero(),
                off: K::zero(),
            },
        }
    }

    /// The node's on and off value for an option.
    fn sides(&self, option: Placed) -> Sides<K>
        requires place { option.place + 1 < self.now.values.stride }
        ensures on { result.on ≡ side_here K.ring self.now true option.variable option.place }
        ensures off { result.off ≡ side_here K.ring self.now false option.variable (option.place + 1) }
    {
        self.node_sides(option, self.query.table.nodes[self.node])
    }

    /// Writes the node's on and off value for each option behind the place of its value, zero where
    /// there is none. Answers the least, over the free options that the node mentions, of the greater
    /// of the two.
    fn write_sides(&self, part: &mut [K]) -> Option<K>
        requires { length part.old ≡ self.now.values.stride }
        ensures row { drop 1 part.new ≡ row_here K.ring self.now }
        ensures least { result ≡ least_here K.ring self.now }
    {
        if self.free == 0 {
            part[1..].fill_with(|| K::zero());
            return None;
        }
        let mut least = None;
        for (j, &variable) in self.options.iter().enumerate() {
            let place = 2 * j + 1;
            if self.is_open(variable) {
                let sides = self.sides(Placed { variable, place });
                part[place] = sides.on;
                part[place + 1] = sides.off;
                least = Some(lower(least, greater(sides.on, sides.off)));
            } else {
                part[place] = K::zero();
                part[place + 1] = K::zero();
            }
        }
        least
    }
}

/// The lesser of the least so far and one more figure.
fn lower<K: Figure>(least: Option<K>, figure: K) -> K
    ensures { result ≡ lower K.ring least figure }
{
    least.map_or(figure, |least| lesser(least, figure))
}

/// Lists the options by rising number: how many there are.
fn list_options(table: &Table, out: &mut [u16]) -> usize
    requires { length (roles table.now) ≤ length out.old }
    ensures listed { take result out.new ≡ options_of (roles table.now) }
    ensures few { result ≤ length (roles table.now) }
{
    let mut count = 0;
    for (i, variable) in table.variables.as_slice().iter().enumerate() {
        if variable.role == Role::Option {
            out[count] = i as u16 + 1;
            count += 1;
        }
    }
    count
}

impl<K: Figure> Query<'_, K> {
    /// Writes a node's part, from those of the nodes before it.
    fn write_part(&self, options: &[u16], free: u64, node: usize, places: &[K], part: &mut [K])
        requires listed { options.now ≡ options_of (roles self.now.table.now) }
        requires free { FreeOptions (problem self.now) free }
        requires node { node < length self.now.table.now.nodes.now }
        requires part { length part.old ≡ stride (roles self.now.table.now) }
        requires places { length places.now ≡ node * stride (roles self.now.table.now) }
        ensures { let wide = stride (roles self.now.table.now) in
            part.new ≡ part_in K.ring (problem self.now) wide places.now node options.now }
    {
        let values = NodeValues {
            places,
            stride: part.len(),
        };
        let step = Step {
            query: self,
            options,
            values,
            node,
            free: free & self.table.mentions.sets[node],
        };
        let least = step.write_sides(part);
        part[0] = match least {
            Some(least) => least,
            None => self.node_at(&Plain, &step.values, node),
        };
    }

    /// Writes the parts of the nodes, in order, by the list of the options.
    fn write_parts(&self, options: &[u16], work: &mut [K])
        requires listed { options.now ≡ options_of (roles self.now.table.now) }
        requires room { pair_places (roles self.now.table.now) (circuit self.now.table.now) ≤ length work.old }
        ensures { work.new ≡ pairs_left K.ring (problem self.now) work.old }
    {
        let stride = stride(self.table);
        let free = self.table.option_set() & self.holds.free_set();
        for node in 0..self.table.nodes.len() {
            let (places, rest) = work.split_at_mut(node * stride);
            self.write_part(options, free, node, places, &mut rest[..stride]);
        }
    }

    /// Writes the parts of the nodes, in order, into the first places of `work`. With k options a
    /// part has 2k + 1 places: the node's value, then each option's on and off value by rising
    /// number, zero where there is none.
    pub fn pair_pass(&self, work: &mut [K])
        requires room { pair_places (roles self.now.table.now) (circuit self.now.table.now) ≤ length work.old }
        ensures { work.new ≡ pairs_left K.ring (problem self.now) work.old }
    {
        let mut numbers = [0; 64];
        let count = list_options(self.table, &mut numbers);
        self.write_parts(&numbers[..count], work);
    }
}
