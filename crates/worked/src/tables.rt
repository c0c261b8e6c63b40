// The types of the worked cases, at their own alignments, and the answers. Written out, since a constant may call no
// function of the repository.
use allocation::answers::Answer;
use allocation::asked::Asked;
use allocation::faults::{Cause, PlacementFault};
use place::pieces::{Piece, Place};
use stage::Refusal;
use values::kinds::Kind;
use values::sizes::Size;

pub(crate) const U1: Asked = Asked {
    kind: Kind::Unsigned,
    width: 1,
    alignment: 1,
};

pub(crate) const U2: Asked = Asked {
    kind: Kind::Unsigned,
    width: 2,
    alignment: 2,
};

pub(crate) const U4: Asked = Asked {
    kind: Kind::Unsigned,
    width: 4,
    alignment: 4,
};

pub(crate) const U8: Asked = Asked {
    kind: Kind::Unsigned,
    width: 8,
    alignment: 8,
};

pub(crate) const S1: Asked = Asked {
    kind: Kind::Signed,
    width: 1,
    alignment: 1,
};

pub(crate) const S2: Asked = Asked {
    kind: Kind::Signed,
    width: 2,
    alignment: 2,
};

pub(crate) const S4: Asked = Asked {
    kind: Kind::Signed,
    width: 4,
    alignment: 4,
};

pub(crate) const S8: Asked = Asked {
    kind: Kind::Signed,
    width: 8,
    alignment: 8,
};

pub(crate) const F4: Asked = Asked {
    kind: Kind::Float,
    width: 4,
    alignment: 4,
};

pub(crate) const F8: Asked = Asked {
    kind: Kind::Float,
    width: 8,
    alignment: 8,
};

pub(crate) const A4: Asked = Asked {
    kind: Kind::Address,
    width: 4,
    alignment: 4,
};

pub(crate) const R0: Answer = Ok(Place::Single(Piece::Register(0)));

pub(crate) const R1: Answer = Ok(Place::Single(Piece::Register(1)));

pub(crate) const R0_R1: Answer = Ok(Place::Double(Piece::Register(0), Piece::Register(1)));

pub(crate) const R2_R3: Answer = Ok(Place::Double(Piece::Register(2), Piece::Register(3)));

// Bytes of the block, 4 to a piece, from an offset on.
pub(crate) const AT_0: Answer = Ok(Place::Single(Piece::Block {
    offset: 0,
    width: Size::Four,
}));

pub(crate) const AT_8: Answer = Ok(Place::Single(Piece::Block {
    offset: 8,
    width: Size::Four,
}));

pub(crate) const AT_0_AND_4: Answer = Ok(Place::Double(
    Piece::Block {
        offset: 0,
        width: Size::Four,
    },
    Piece::Block {
        offset: 4,
        width: Size::Four,
    },
));

pub(crate) const AT_8_AND_12: Answer = Ok(Place::Double(
    Piece::Block {
        offset: 8,
        width: Size::Four,
    },
    Piece::Block {
        offset: 12,
        width: Size::Four,
    },
));

pub(crate) const REFUSED: Answer = Err(PlacementFault {
    cause: Cause::Refused(Refusal { line: 0 }),
    position: 0,
});

pub(crate) const UNSOUND: Answer = Err(PlacementFault {
    cause: Cause::Unsound,
    position: 0,
});
