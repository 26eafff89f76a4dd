//! Which field of a record is at fault, in words. The numbers are those of the readers of records, which decide.

use arrayvec::ArrayVec;
use mm_definitions::content_types::is_content_type;
use mm_definitions::identifiers::is_identifier;
use mm_definitions::limits::{
    FARTHEST, LARGEST_PIXEL, LAST_ID, LAST_PLACE, LAST_ZOOM, MOST_AMOUNT, MOST_DEFINITION_BYTES,
    MOST_MEDIA_BYTES, MOST_PIXELS, MOST_TEXT_BYTES, MOST_TILE_BYTES, MOST_TILES,
};
use mm_definitions::names::is_name;
use mm_definitions::numbers::read_number;
use mm_definitions::refusals::{NO_SUCH_RECORD, NOT_A_NAME, OUT_OF_LIMITS};
use std::fmt;
use std::fmt::{Display, Formatter};

/// What a field holds.
#[derive(Clone, Copy, Debug, Default)]
enum Sort {
    #[default]
    Name,
    /// From the one to the other.
    Number(i64, i64),
    /// Of so many bytes, from the one to the other.
    Text(usize, usize),
    Identifier,
    ContentType,
    /// In hexadecimal, of 1 to so many bytes.
    Bytes(usize),
    /// One of two words.
    Either(&'static str, &'static str),
    /// The name of a file of a kit, which is judged by its own number.
    File,
}

/// A field's name, and what it holds.
type Field = (&'static str, Sort);

/// The fields of a record behind its word.
type Form = ArrayVec<Field, 8>;

const TABLE: Field = ("TABLE", Sort::Name);

const MAPPING: Field = ("MAPPING", Sort::Name);

const EDITION: Field = ("EDITION", Sort::Name);

const ID: Field = ("ID", Sort::Number(1, LAST_ID as i64));

const ZOOM: Field = ("ZOOM", Sort::Number(0, LAST_ZOOM as i64));

const COLUMN: Field = ("COLUMN", Sort::Number(0, LAST_PLACE as i64));

const PLACE_ROW: Field = ("ROW", Sort::Number(0, LAST_PLACE as i64));

const IDENTIFIER: Field = ("IDENTIFIER", Sort::Identifier);

const CONTENT_TYPE: Field = ("CONTENT_TYPE", Sort::ContentType);

const FILE: Field = ("FILE", Sort::File);

const COORDINATE: Sort = Sort::Number(-(FARTHEST as i64), FARTHEST as i64);

const MATRIX_SIDE: Sort = Sort::Number(1, MOST_TILES as i64);

const TILE_SIDE: Sort = Sort::Number(1, MOST_PIXELS as i64);

const PIXEL: Sort = Sort::Number(1, LARGEST_PIXEL as i64);

const AMOUNT: Sort = Sort::Number(-(MOST_AMOUNT as i64), MOST_AMOUNT as i64);

const SRS: [Field; 6] = [
    ID,
    ("NAME", Sort::Text(1, MOST_TEXT_BYTES)),
    ("ORGANIZATION", Sort::Text(1, MOST_TEXT_BYTES)),
    ("ORGANIZATION_ID", Sort::Number(1, LAST_ID as i64)),
    ("DEFINITION", Sort::Text(1, MOST_DEFINITION_BYTES)),
    ("DESCRIPTION", Sort::Text(0, MOST_TEXT_BYTES)),
];

const PYRAMID: [Field; 8] = [
    TABLE,
    IDENTIFIER,
    ("SYSTEM", Sort::Number(-1, LAST_ID as i64)),
    ("MIN_X", COORDINATE),
    ("MIN_Y", COORDINATE),
    ("MAX_X", COORDINATE),
    ("MAX_Y", COORDINATE),
    ("STEP", Sort::Either("two", "other")),
];

const MATRIX: [Field; 8] = [
    TABLE,
    ZOOM,
    ("WIDTH", MATRIX_SIDE),
    ("HEIGHT", MATRIX_SIDE),
    ("TILE_WIDTH", TILE_SIDE),
    ("TILE_HEIGHT", TILE_SIDE),
    ("PIXEL_X", PIXEL),
    ("PIXEL_Y", PIXEL),
];

const PLAIN: [Field; 3] = [
    TABLE,
    ("KIND", Sort::Either("attributes", "media")),
    IDENTIFIER,
];

const DROP: [Field; 1] = [TABLE];

const TILE: [Field; 5] = [
    TABLE,
    ZOOM,
    COLUMN,
    PLACE_ROW,
    ("BYTES", Sort::Bytes(MOST_TILE_BYTES)),
];

const TILE_FILE: [Field; 5] = [TABLE, ZOOM, COLUMN, PLACE_ROW, FILE];

const TILE_DROP: [Field; 4] = [TABLE, ZOOM, COLUMN, PLACE_ROW];

const ROW: [Field; 5] = [
    TABLE,
    ID,
    ("TITLE", Sort::Text(0, MOST_TEXT_BYTES)),
    ("NOTE", Sort::Text(0, MOST_TEXT_BYTES)),
    ("AMOUNT", AMOUNT),
];

const ITEM_DROP: [Field; 2] = [TABLE, ID];

const MEDIA: [Field; 4] = [
    TABLE,
    ID,
    CONTENT_TYPE,
    ("BYTES", Sort::Bytes(MOST_MEDIA_BYTES)),
];

const MEDIA_FILE: [Field; 4] = [TABLE, ID, CONTENT_TYPE, FILE];

const RELATION: [Field; 4] = [
    MAPPING,
    ("BASE", Sort::Name),
    ("RELATED", Sort::Name),
    ("NAME", Sort::Either("media", "simple_attributes")),
];

const RELATION_DROP: [Field; 1] = [MAPPING];

const MAP: [Field; 3] = [
    MAPPING,
    ("BASE_ID", Sort::Number(1, LAST_ID as i64)),
    ("RELATED_ID", Sort::Number(1, LAST_ID as i64)),
];

const OF_EDITION: [Field; 1] = [EDITION];

const STAGE: [Field; 2] = [EDITION, ("NUMBER", Sort::Number(1, LAST_ID as i64))];

const PLACE: [Field; 1] = [("NO", Sort::Number(1, LAST_ID as i64))];

/// A form of these fields, of which there are eight at most.
fn form_of(fields: &[Field]) -> Form {
    let mut form = ArrayVec::new();
    for field in fields {
        let _full = form.try_push(*field);
    }
    form
}

/// The pieces by their words, with the fields behind each.
const PIECES: [(&str, &[Field]); 9] = [
    ("matrix", &MATRIX),
    ("tile", &TILE),
    ("tile-drop", &TILE_DROP),
    ("row", &ROW),
    ("row-drop", &ITEM_DROP),
    ("media", &MEDIA),
    ("media-drop", &ITEM_DROP),
    ("map", &MAP),
    ("map-drop", &MAP),
];

/// The commands that are no pieces, but for `stage`, in the same way.
const COMMANDS: [(&str, &[Field]); 10] = [
    ("srs", &SRS),
    ("pyramid", &PYRAMID),
    ("table", &PLAIN),
    ("drop", &DROP),
    ("relation", &RELATION),
    ("relation-drop", &RELATION_DROP),
    ("edition", &OF_EDITION),
    ("discard", &OF_EDITION),
    ("publish", &OF_EDITION),
    ("rehearse", &OF_EDITION),
];

/// The fields that a table has behind a word.
fn form_in(table: &[(&str, &[Field])], word: &str) -> Option<Form> {
    for (name, fields) in table {
        if *name == word {
            return Some(form_of(fields));
        }
    }
    None
}

/// The fields of a piece behind its word.
fn piece_form(word: &str) -> Option<Form> {
    form_in(&PIECES, word)
}

/// The fields of a command behind its word, but for `stage`.
fn command_form(word: &str) -> Option<Form> {
    match form_in(&COMMANDS, word) {
        Some(form) => Some(form),
        None => piece_form(word),
    }
}

/// Whether a piece of this kind has a file in a kit.
pub fn is_piece_with_file(word: &str) -> bool {
    word == "tile" || word == "media"
}

/// The fields of a piece of a kit.
fn kit_form(word: &str) -> Option<Form> {
    match word {
        "tile" => Some(form_of(&TILE_FILE)),
        "media" => Some(form_of(&MEDIA_FILE)),
        _ => piece_form(word),
    }
}

/// What is at fault.
#[derive(Debug, Drop)]
enum Why<'a> {
    Command(&'a str),
    Piece(&'a str),
    Count {
        has: usize,
        word: &'a str,
        form: Form,
    },
    Field {
        place: usize,
        name: &'static str,
        sort: Sort,
        text: &'a str,
        number: u8,
    },
}

/// What is at fault in a record, in words.
#[derive(Debug, Drop)]
pub struct Remark<'a>(Why<'a>);

/// The number that a text is refused with, where it is.
fn number_against(sort: Sort, text: &str) -> Option<u8> {
    match sort {
        Sort::Name => (!is_name(text)).then_some(NOT_A_NAME),
        Sort::Number(least, most) => match read_number(text, least, most) {
            Ok(_) => None,
            Err(reason) => Some(reason.get()),
        },
        Sort::Text(least, most) => {
            let fits = text.len() >= least && text.len() <= most && !text.as_bytes().contains(&0);
            (!fits).then_some(OUT_OF_LIMITS)
        }
        Sort::Identifier => (!is_identifier(text)).then_some(OUT_OF_LIMITS),
        Sort::ContentType => (!is_content_type(text)).then_some(OUT_OF_LIMITS),
        Sort::Bytes(most) => {
            let is_hexadecimal = text.as_bytes().iter().all(|byte| byte.is_ascii_hexdigit());
            if !is_hexadecimal || text.len() % 2 == 1 {
                return Some(NO_SUCH_RECORD);
            }
            let fits = text.len() > 0 && text.len() / 2 <= most;
            (!fits).then_some(OUT_OF_LIMITS)
        }
        Sort::Either(one, other) => (text != one && text != other).then_some(NO_SUCH_RECORD),
        Sort::File => None,
    }
}

/// The first of these fields that is refused with this number; the fields in front of them are so many.
fn field_against<'a>(
    form: &[Field],
    fields: &[&'a str],
    front: usize,
    number: u8,
) -> Option<Remark<'a>> {
    for (index, ((name, sort), text)) in form.iter().zip(fields.iter()).enumerate() {
        if number_against(*sort, text) == Some(number) {
            return Some(Remark(Why::Field {
                place: front.saturating_add(index).saturating_add(1),
                name,
                sort: *sort,
                text,
                number,
            }));
        }
    }
    None
}

/// What of a record behind so many fields is refused with this number, by the form that its word has.
fn form_against<'a>(
    form: Option<Form>,
    unknown: Why<'a>,
    fields: &[&'a str],
    front: usize,
    number: u8,
) -> Option<Remark<'a>> {
    let [word, rest @ ..] = fields else {
        return Some(Remark(unknown));
    };
    let Some(form) = form else {
        return Some(Remark(unknown));
    };
    if rest.len() != form.len() {
        return (number == NO_SUCH_RECORD).then_some(Remark(Why::Count {
            has: fields.len(),
            word,
            form,
        }));
    }
    field_against(form.as_slice(), rest, front.saturating_add(1), number)
}

/// What of a piece is refused with this number, behind so many fields of the record.
fn piece_against<'a>(
    fields: &[&'a str],
    front: usize,
    number: u8,
    is_of_kit: bool,
) -> Option<Remark<'a>> {
    let word = fields.first().copied().unwrap_or("");
    let form = if is_of_kit {
        kit_form(word)
    } else {
        piece_form(word)
    };
    form_against(form, Why::Piece(word), fields, front, number)
}

/// What of a record of a list is refused with 10, 11 or 12, where it is one of its fields or their number.
pub fn remark_on<'a>(fields: &[&'a str], number: u8) -> Option<Remark<'a>> {
    if let ["stage", edition, place, piece @ ..] = fields {
        return match field_against(&STAGE, &[*edition, *place], 1, number) {
            Some(remark) => Some(remark),
            None => piece_against(piece, 3, number, false),
        };
    }
    let word = fields.first().copied().unwrap_or("");
    form_against(command_form(word), Why::Command(word), fields, 0, number)
}

/// So of a record of a kit's list.
pub fn remark_on_piece<'a>(fields: &[&'a str], number: u8) -> Option<Remark<'a>> {
    let [place, piece @ ..] = fields else {
        return None;
    };
    match field_against(&PLACE, &[*place], 0, number) {
        Some(remark) => Some(remark),
        None => piece_against(piece, 1, number, true),
    }
}

/// The names of a form's fields, behind its word.
fn write_form<W: fmt::Write>(f: &mut Formatter<W>, word: &str, form: &[Field]) -> fmt::Result {
    write!(f, "{word}")?;
    for (name, _) in form {
        write!(f, ",{name}")?;
    }
    Ok(())
}

/// Why a word is no command, and what a list from elsewhere has in its place.
fn write_command<W: fmt::Write>(f: &mut Formatter<W>, word: &str) -> fmt::Result {
    if word.contains(';') || word.contains('\t') {
        return write!(
            f,
            "{word:?} is one field: a comma parts fields, and no other sign"
        );
    }
    write!(f, "{word:?} is no command")?;
    if word.as_bytes().iter().any(|byte| byte.is_ascii_uppercase()) {
        return write!(f, ": small letters are wanted");
    }
    Ok(())
}

/// Why a text isn't what its field holds.
fn write_why<W: fmt::Write>(
    f: &mut Formatter<W>,
    sort: Sort,
    text: &str,
    number: u8,
) -> fmt::Result {
    match sort {
        Sort::Name => write!(f, "{text:?} is no name"),
        Sort::Number(_, _) if number == NO_SUCH_RECORD => write!(f, "{text:?} is no whole number"),
        Sort::Number(least, most) => write!(f, "{text} isn't from {least} to {most}"),
        Sort::Text(least, most) => {
            let size = text.len();
            write!(
                f,
                "it has {size} bytes, wanted are {least} to {most} and no byte 0"
            )
        }
        Sort::Identifier => {
            let size = text.len();
            write!(
                f,
                "it has {size} bytes, wanted are 1 to 1000 without control characters"
            )
        }
        Sort::ContentType => write!(f, "{text:?} isn't two words round a /"),
        Sort::Bytes(_) if number == NO_SUCH_RECORD => {
            write!(f, "its bytes aren't two hexadecimal digits each")
        }
        Sort::Bytes(most) => {
            let size = text.len() / 2;
            write!(f, "it has {size} bytes, wanted are 1 to {most}")
        }
        Sort::Either(one, other) => write!(f, "{text:?} is neither {one} nor {other}"),
        Sort::File => Ok(()),
    }
}

impl Display for Remark<'_> {
    fn fmt<W: fmt::Write>(&self, f: &mut Formatter<W>) -> fmt::Result {
        match &self.0 {
            Why::Command(word) => write_command(f, word),
            Why::Piece(word) => write!(f, "{word:?} is no piece"),
            Why::Count { has, word, form } => {
                let wanted = form.len().saturating_add(1);
                write!(f, "{has} fields, wanted are {wanted}: ")?;
                write_form(f, word, form.as_slice())
            }
            Why::Field {
                place,
                name,
                sort,
                text,
                number,
            } => {
                write!(f, "field {place}, {name}: ")?;
                write_why(f, *sort, text, *number)
            }
        }
    }
}
