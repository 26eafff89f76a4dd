//! The reasons for refusals. Each number stands here alone.

use std::marker::Model;

/// There is no such record.
pub const NO_SUCH_RECORD: u8 = 10;

/// A number or length is out of limits.
pub const OUT_OF_LIMITS: u8 = 11;

/// A name is none.
pub const NOT_A_NAME: u8 = 12;

/// The system exists.
pub const SYSTEM_EXISTS: u8 = 20;

/// There is no such system.
pub const NO_SYSTEM: u8 = 21;

/// A geographic system.
pub const GEOGRAPHIC_SYSTEM: u8 = 22;

/// The table's name is taken.
pub const TABLE_NAME_TAKEN: u8 = 23;

/// The identifier is taken.
pub const IDENTIFIER_TAKEN: u8 = 24;

/// There is no such table.
pub const NO_TABLE: u8 = 25;

/// The table is of another kind.
pub const ANOTHER_KIND: u8 = 26;

/// The extent is empty.
pub const EMPTY_EXTENT: u8 = 27;

/// The zoom has a matrix.
pub const MATRIX_EXISTS: u8 = 30;

/// The extent is not the product.
pub const NOT_THE_PRODUCT: u8 = 31;

/// Pixel sizes are out of order.
pub const PIXEL_SIZES_OUT_OF_ORDER: u8 = 32;

/// There is no matrix at this zoom.
pub const NO_MATRIX: u8 = 33;

/// The place is outside the matrix.
pub const OUTSIDE_MATRIX: u8 = 34;

/// There is no such tile.
pub const NO_TILE: u8 = 35;

/// There is no such row.
pub const NO_ROW: u8 = 40;

/// There is no such media item.
pub const NO_MEDIA_ITEM: u8 = 41;

/// The row or item is still mapped.
pub const STILL_MAPPED: u8 = 42;

/// The mapping's name is taken.
pub const MAPPING_NAME_TAKEN: u8 = 43;

/// There is no such relation.
pub const NO_RELATION: u8 = 44;

/// The mapping row exists.
pub const MAPPING_ROW_EXISTS: u8 = 45;

/// There is no such mapping row.
pub const NO_MAPPING_ROW: u8 = 46;

/// The kinds do not suit the relation's name.
pub const UNSUITED_KINDS: u8 = 47;

/// A relation uses the table.
pub const USED_BY_A_RELATION: u8 = 48;

/// The edition exists.
pub const EDITION_EXISTS: u8 = 50;

/// There is no such edition.
pub const NO_EDITION: u8 = 51;

/// It is not the next piece, and no equal one stands there.
pub const NOT_THE_NEXT_PIECE: u8 = 52;

/// A piece is refused.
pub const PIECE_REFUSED: u8 = 53;

/// There are too many pieces.
pub const TOO_MANY_PIECES: u8 = 54;

/// The edition is published already.
pub const PUBLISHED_ALREADY: u8 = 55;

/// The number is not the record's place in the list.
pub const NOT_THE_PLACE: u8 = 56;

/// A file is missing, or its name is out of form.
pub const NO_FILE: u8 = 57;

/// Why a record, a command, a piece or a kit is refused: a number of the table, other than 53 (an edition's, which
/// `Refusal` tells with the number of the piece and the piece's own reason).
#[derive(Clone, Copy, Debug, PartialEq, Eq)]
pub struct Reason {
    number: u8,
}

impl Model for Reason {
    ghost use Rattle.std.specs.Prelude.{ℕ};
    ghost use Rattle.mm_definitions.specs.Refusals.{IsReason};

    ghost Value = { ℕ };

    ghost view = { λ reason. reason.number };

    ghost inverse = { λ number. record { number = number } };

    ghost invariant = { λ reason. IsReason reason.number };
}

impl Reason {
    ghost use Rattle.std.specs.Prelude.{◌≡◌};
    ghost use Rattle.mm_definitions.specs.Refusals.{IsReason};

    /// 10: there is no such record.
    pub const NO_SUCH_RECORD: Reason = Reason {
        number: NO_SUCH_RECORD,
    };
    /// 11: a number or length is out of limits.
    pub const OUT_OF_LIMITS: Reason = Reason {
        number: OUT_OF_LIMITS,
    };
    /// 12: a name is none.
    pub const NOT_A_NAME: Reason = Reason { number: NOT_A_NAME };
    /// 20: the system exists.
    pub const SYSTEM_EXISTS: Reason = Reason {
        number: SYSTEM_EXISTS,
    };
    /// 21: there is no such system.
    pub const NO_SYSTEM: Reason = Reason { number: NO_SYSTEM };
    /// 22: a geographic system.
    pub const GEOGRAPHIC_SYSTEM: Reason = Reason {
        number: GEOGRAPHIC_SYSTEM,
    };
    /// 23: the table's name is taken.
    pub const TABLE_NAME_TAKEN: Reason = Reason {
        number: TABLE_NAME_TAKEN,
    };
    /// 24: the identifier is taken.
    pub const IDENTIFIER_TAKEN: Reason = Reason {
        number: IDENTIFIER_TAKEN,
    };
    /// 25: there is no such table.
    pub const NO_TABLE: Reason = Reason { number: NO_TABLE };
    /// 26: the table is of another kind.
    pub const ANOTHER_KIND: Reason = Reason {
        number: ANOTHER_KIND,
    };
    /// 27: the extent is empty.
    pub const EMPTY_EXTENT: Reason = Reason {
        number: EMPTY_EXTENT,
    };
    /// 30: the zoom has a matrix.
    pub const MATRIX_EXISTS: Reason = Reason {
        number: MATRIX_EXISTS,
    };
    /// 31: the extent is not the product.
    pub const NOT_THE_PRODUCT: Reason = Reason {
        number: NOT_THE_PRODUCT,
    };
    /// 32: pixel sizes are out of order.
    pub const PIXEL_SIZES_OUT_OF_ORDER: Reason = Reason {
        number: PIXEL_SIZES_OUT_OF_ORDER,
    };
    /// 33: there is no matrix at this zoom.
    pub const NO_MATRIX: Reason = Reason { number: NO_MATRIX };
    /// 34: the place is outside the matrix.
    pub const OUTSIDE_MATRIX: Reason = Reason {
        number: OUTSIDE_MATRIX,
    };
    /// 35: there is no such tile.
    pub const NO_TILE: Reason = Reason { number: NO_TILE };
    /// 40: there is no such row.
    pub const NO_ROW: Reason = Reason { number: NO_ROW };
    /// 41: there is no such media item.
    pub const NO_MEDIA_ITEM: Reason = Reason {
        number: NO_MEDIA_ITEM,
    };
    /// 42: the row or item is still mapped.
    pub const STILL_MAPPED: Reason = Reason {
        number: STILL_MAPPED,
    };
    /// 43: the mapping's name is taken.
    pub const MAPPING_NAME_TAKEN: Reason = Reason {
        number: MAPPING_NAME_TAKEN,
    };
    /// 44: there is no such relation.
    pub const NO_RELATION: Reason = Reason {
        number: NO_RELATION,
    };
    /// 45: the mapping row exists.
    pub const MAPPING_ROW_EXISTS: Reason = Reason {
        number: MAPPING_ROW_EXISTS,
    };
    /// 46: there is no such mapping row.
    pub const NO_MAPPING_ROW: Reason = Reason {
        number: NO_MAPPING_ROW,
    };
    /// 47: the kinds do not suit the relation's name.
    pub const UNSUITED_KINDS: Reason = Reason {
        number: UNSUITED_KINDS,
    };
    /// 48: a relation uses the table.
    pub const USED_BY_A_RELATION: Reason = Reason {
        number: USED_BY_A_RELATION,
    };
    /// 50: the edition exists.
    pub const EDITION_EXISTS: Reason = Reason {
        number: EDITION_EXISTS,
    };
    /// 51: there is no such edition.
    pub const NO_EDITION: Reason = Reason { number: NO_EDITION };
    /// 52: it is not the next piece, and no equal one stands there.
    pub const NOT_THE_NEXT_PIECE: Reason = Reason {
        number: NOT_THE_NEXT_PIECE,
    };
    /// 54: there are too many pieces.
    pub const TOO_MANY_PIECES: Reason = Reason {
        number: TOO_MANY_PIECES,
    };
    /// 55: the edition is published already.
    pub const PUBLISHED_ALREADY: Reason = Reason {
        number: PUBLISHED_ALREADY,
    };
    /// 56: the number is not the record's place in the list.
    pub const NOT_THE_PLACE: Reason = Reason {
        number: NOT_THE_PLACE,
    };
    /// 57: a file is missing, or its name is out of form.
    pub const NO_FILE: Reason = Reason { number: NO_FILE };

    /// The reason of this number.
    pub(crate) const fn numbered(number: u8) -> Reason
        requires { IsReason number }
        ensures { result ≡ number }
    {
        Reason { number }
    }

    /// Its number.
    pub const fn get(self) -> u8
        ensures number { result ≡ self }
        ensures within { IsReason self }
    {
        self.number
    }
}
