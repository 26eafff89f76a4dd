//! The limits of numbers and lengths. Each stands here alone.

/// The farthest coordinate in either direction, in millimetres: the limit of profile 1.
pub const FARTHEST_IN_MILLIMETRES: u64 = 100_000_000_000;

/// The farthest coordinate in either direction, in micrometres.
pub const FARTHEST: u64 = 100_000_000_000_000;

/// The largest size of a pixel, in millimetres: the limit of profile 1.
pub const LARGEST_PIXEL_IN_MILLIMETRES: u64 = 1_000_000_000;

/// The largest size of a pixel, in micrometres.
pub const LARGEST_PIXEL: u64 = 1_000_000_000_000;

/// The highest zoom level.
pub const LAST_ZOOM: u8 = 30;

/// The most tiles that a matrix has in a row or column.
pub const MOST_TILES: u32 = 1_073_741_824;

/// The last column or row that a tile has.
pub const LAST_PLACE: u32 = 1_073_741_823;

/// The most pixels that a tile has in a row or column.
pub const MOST_PIXELS: u32 = 4096;

/// The largest number of a row, a medium, a piece or a reference system.
pub const LAST_ID: u64 = 9_007_199_254_740_992;

/// The largest amount of an attribute row, either way.
pub const MOST_AMOUNT: u64 = 1_000_000_000_000_000;

/// The most pieces that an edition has.
pub const MOST_PIECES: u32 = 4096;

/// The most bytes of a name.
pub const MOST_NAME_BYTES: usize = 60;

/// The most bytes of one of the two words of a content type.
pub const MOST_WORD_BYTES: usize = 64;

/// The most bytes of an identifier, of a system's name, organization or description, and of a row's title or note.
pub const MOST_TEXT_BYTES: usize = 1000;

/// The most bytes of the definition of a reference system.
pub const MOST_DEFINITION_BYTES: usize = 8192;

/// The most bytes of a tile.
pub const MOST_TILE_BYTES: usize = 1_048_576;

/// The most bytes of a media item.
pub const MOST_MEDIA_BYTES: usize = 4_194_304;
