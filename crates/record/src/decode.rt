// A node's record: what it decodes to. Kinds of nodes are numbers here, as in `node_of` of awhile/specs/Nodes, for the bytes hold any number:
// an enum of the 18 would first have to be made of numbers by this very list, and then be told apart again into nodes.
ghost use Rattle.std.specs.Prelude.{◌+◌, ◌^◌, ◌<◌, ◌≡◌};
ghost use Rattle.awhile.specs.Nodes.{node_of, decode_at};

use awhile::Node;
use bytes_le::get;

// The node of a kind, from the record's first three 2-byte fields and its first 4-byte field.
#[tactic(auto, unfolding(awhile::specs::Nodes::node_of))]
pub fn node_of(kind: usize, f: usize, g: usize, h: usize, w: u32) -> Option<Node>
    ensures { result ≡ node_of kind f g h w }
{
    let node = match kind {
        16 => Node::Number { value: w },
        17 => Node::Variable { variable: f },
        18 => Node::Add { left: f, right: g },
        19 => Node::Subtract { left: f, right: g },
        20 => Node::Multiply { left: f, right: g },
        21 => Node::Choice {
            condition: f,
            yes: g,
            no: h,
        },
        32 => Node::Constant { value: f },
        33 => Node::Equal { left: f, right: g },
        34 => Node::Less { left: f, right: g },
        35 => Node::Not { truth: f },
        36 => Node::And { left: f, right: g },
        48 => Node::Skip,
        49 => Node::Assign {
            variable: f,
            value: g,
        },
        50 => Node::Sequence {
            first: f,
            second: g,
        },
        51 => Node::If {
            condition: f,
            yes: g,
            no: h,
        },
        52 => Node::While {
            condition: f,
            body: g,
        },
        53 => Node::Read {
            variable: f,
            array: g,
            index: h,
        },
        54 => Node::Write {
            array: f,
            index: g,
            value: h,
        },
        _ => return None,
    };
    Some(node)
}

// What the record at an offset decodes to, whatever its length says. Offsets past the end read as zeros. No record has more than 10 bytes, so
// but at the end of a table one test tells that all fields are there.
#[tactic(auto, unfolding(awhile::specs::Nodes::decode_at))]
pub fn decode_at(table: &[u8], at: usize) -> Option<Node>
    requires { at + 8 < 2 ^ 64 }
    ensures { result ≡ decode_at table.now at }
{
    if 10 <= get::bytes_from(table, at) {
        return node_of(
            get::whole_u16(table, at + 2),
            get::whole_u16(table, at + 4),
            get::whole_u16(table, at + 6),
            get::whole_u16(table, at + 8),
            get::whole_u32(table, at + 4),
        );
    }
    node_of(
        get::u16_at(table, at + 2),
        get::u16_at(table, at + 4),
        get::u16_at(table, at + 6),
        get::u16_at(table, at + 8),
        get::u32_at(table, at + 4),
    )
}
