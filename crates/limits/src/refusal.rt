// Why a call is refused, or what is wrong with what it was lent: its number, and the places that it names.
ghost use Rattle.std.specs.Prelude.{◌≡◌};
ghost use Rattle.limits.specs.Refusal.{said_by};

#[derive(Clone, Copy, PartialEq, Eq)]
pub enum Refusal {
    // 1: a table may not have so many columns
    Columns,
    // 2: m, l, the circles or the edition is out of range
    Parameters,
    // 3: the table's length is no multiple of its columns
    Ragged,
    // 4: the table has too many rows
    Rows,
    // 5: a lent room is too short
    Room,
    // 6: the query's length is not a row's
    Query,
    // 7: none are wanted
    NoneWanted,
    // 8: the index is not this table's
    OtherTable,
    // 9: the index is not in shape
    Shape,
    // 10: the row number at this position stood before
    RowAgain(usize),
    // 11: the stored distance at this position is wrong
    StoredDistance(usize),
    // 12: the radius or the inner reach of this node is wrong
    Reach(usize),
    // 13: in this node, the row at this position is closer to another centre
    Stray(usize, usize),
    // 14: an image is no whole blocks
    Blocks,
    // 15: the check word of this block is wrong
    CheckWord(usize),
    // 16: the header of an index is impossible
    Header,
    // 17: a word behind the last is not zero
    Rest,
    // 18: a text can't be read
    Text,
    // 19: a column that is a circle holds 3,600 or more
    OffCircle,
    // 20: the set is none of the table's rows
    Set,
    // 26: the row of an order is none of the table's
    NoRow,
}

impl Refusal {
    pub fn number(self) -> u32
        ensures { result ≡ (said_by self).0 }
    {
        match self {
            Refusal::Columns => 1,
            Refusal::Parameters => 2,
            Refusal::Ragged => 3,
            Refusal::Rows => 4,
            Refusal::Room => 5,
            Refusal::Query => 6,
            Refusal::NoneWanted => 7,
            Refusal::OtherTable => 8,
            Refusal::Shape => 9,
            Refusal::RowAgain(_) => 10,
            Refusal::StoredDistance(_) => 11,
            Refusal::Reach(_) => 12,
            Refusal::Stray(_, _) => 13,
            Refusal::Blocks => 14,
            Refusal::CheckWord(_) => 15,
            Refusal::Header => 16,
            Refusal::Rest => 17,
            Refusal::Text => 18,
            Refusal::OffCircle => 19,
            Refusal::Set => 20,
            Refusal::NoRow => 26,
        }
    }

    // The first place that is named: a position, a node or a block, and 0 where there is none.
    pub fn place(self) -> usize
        ensures { result ≡ (said_by self).1 }
    {
        match self {
            Refusal::RowAgain(position) => position,
            Refusal::StoredDistance(position) => position,
            Refusal::Reach(node) => node,
            Refusal::Stray(node, _) => node,
            Refusal::CheckWord(block) => block,
            _ => 0,
        }
    }

    // The second place that is named, a position, and 0 where there is none.
    pub fn second(self) -> usize
        ensures { result ≡ (said_by self).2 }
    {
        match self {
            Refusal::Stray(_, position) => position,
            _ => 0,
        }
    }
}
