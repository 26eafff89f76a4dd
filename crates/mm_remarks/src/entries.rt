//! What each number says, and what to do then: the tables behind `explain`.

/// A number, or the name of a rule, with its text. The first line of a text says what the number says; what it asks of a reader
/// stands below.
pub type Entry = (&'static str, &'static str);

/// What a record is refused for, whatever the package holds.
pub const RECORDS: [Entry; 3] = [
    (
        "10",
        "refused 10: the record is no command

Each of these is a cause:
  - the first word is no command: `ROW` (small letters are wanted), ` row` with a blank in front, a comment
  - there are more or fewer fields than the command has; a comma within a text wants the field in double quotes
  - the fields are parted by another sign than the comma, as `row;spots;7`
  - a number isn't one: `1.5`, `1,5`, `+1`, `007`, `-0`, or an empty field
  - bytes aren't two hexadecimal digits each
  - a word is none of those that the record allows, as STEP, KIND or the NAME of a relation
  - what a `stage` record stages is no piece
  - a text isn't UTF-8, as a list that was saved as Latin-1 or UTF-16
  - a double quote wasn't closed: then the records behind it were read as part of this one, and answered with it

To do: mend the record. `mmpkg help run` has the fields of each; `mmpkg run --words` names the field.
",
    ),
    (
        "11",
        "refused 11: a number or length is outside its limits

An id is from 1 to 9007199254740992, a zoom from 0 to 30, an amount within 1000000000000000 either way, a coordinate
within 100000000000000 micrometres, a pixel's side from 1 to 1000000000000. A title or note has at most 1000 bytes, a
tile 1 to 1048576, a media item 1 to 4194304. A text has no byte 0, an identifier none below 0x20 and no 0x7f; a
content type is two words round a `/`, without parameters. Of a kit: a file is empty or too long, or its list is.
Told alone: the clock is outside the years that a moment has (give `--at`), or MMPKG_KEY is no key.

To do: mend the record or the file. A photo that is too large has to be made smaller, a tile cut into several.
",
    ),
    (
        "12",
        "refused 12: a name is none

The name of a table, a mapping or an edition is 1 to 60 of small letters, digits and `_`, doesn't begin with a digit,
and not with `gpkg`, `sqlite` or `mm_`.

To do: choose another name, as `base_map` for `Base map`. What people read is the identifier, and may be any text.
",
    ),
];

/// What systems, tables, matrices and tiles are refused for.
pub const LAYOUT: [Entry; 14] = [
    (
        "20",
        "refused 20: the system exists

A system has this number already; 4326, -1 and 0 stand in each package. A system that stands can't be changed.

To do: nothing where the list was sent once more; else choose another number.
",
    ),
    (
        "21",
        "refused 21: no such system

The pyramid names a system that the package hasn't.

To do: send its `srs` record first, or mend the number.
",
    ),
    (
        "22",
        "refused 22: a geographic system

The systems 0 and 4326 have degrees, and a pyramid wants whole micrometres.

To do: bring the map into a projected system (`gdalwarp -t_srs EPSG:25832 ..`) and name that.
",
    ),
    (
        "23",
        "refused 23: the table's name is taken

A table, a pyramid or a mapping has this name.

To do: nothing where the list was sent once more; else choose another name.
",
    ),
    (
        "24",
        "refused 24: the identifier is taken

Another table has this identifier, letter by letter.

To do: choose another identifier.
",
    ),
    (
        "25",
        "refused 25: no such table

No table has this name; of a relation, the base or the related table is missing.

To do: make the table first, or mend the name. `mmpkg list FILE` has all of them.
",
    ),
    (
        "26",
        "refused 26: the table is of another kind

Tiles and matrices are for a pyramid, rows for a table of kind attributes, media for one of kind media.

To do: mend the name of the table, or the word in front. `mmpkg list FILE` has each table's kind.
",
    ),
    (
        "27",
        "refused 27: the extent is empty

MIN_X has to be less than MAX_X, and MIN_Y less than MAX_Y. The order is MIN_X, MIN_Y, MAX_X, MAX_Y.

To do: mend the four coordinates.
",
    ),
    (
        "30",
        "refused 30: the zoom has a matrix

The pyramid has a matrix at this zoom, and one that stands can't be changed.

To do: nothing where the list was sent once more. A pyramid with other matrices is dropped and made anew.
",
    ),
    (
        "31",
        "refused 31: the extent is not the product

MAX_X - MIN_X has to be WIDTH x TILE_WIDTH x PIXEL_X, and MAX_Y - MIN_Y be HEIGHT x TILE_HEIGHT x PIXEL_Y, exactly.

To do: mend the matrix, or the extent of the pyramid. An extent in metres wants six more digits.
",
    ),
    (
        "32",
        "refused 32: pixel sizes are out of order, or not in the ratio 2

A higher zoom has to have smaller pixels, both ways; in a pyramid of kind two the next zoom has just half.

To do: mend ZOOM or the pixel sizes; a pyramid with other steps is of kind other.
",
    ),
    (
        "33",
        "refused 33: no matrix at this zoom

The pyramid has no matrix at the zoom of the tile.

To do: send the `matrix` record first, or mend ZOOM.
",
    ),
    (
        "34",
        "refused 34: outside the matrix

COLUMN counts from 0 up to the matrix's WIDTH less 1, ROW from 0 up to its HEIGHT less 1; column 0, row 0 is upper left.

To do: mend COLUMN, ROW or ZOOM. Rows that are counted from below, as TMS has them, are HEIGHT - 1 - ROW here.
",
    ),
    (
        "35",
        "refused 35: no such tile

The pyramid has no tile at this zoom, column and row.

To do: nothing where it was removed before; else mend the place.
",
    ),
];

/// What rows, media, relations and mapping rows are refused for.
pub const CONTENT: [Entry; 9] = [
    (
        "40",
        "refused 40: no such row

The table has no row of this id; of a mapping row, an end of kind attributes has none.

To do: send the `row` record first, or mend the id.
",
    ),
    (
        "41",
        "refused 41: no such media item

The table has no media item of this id; of a mapping row, an end of kind media has none.

To do: send the `media` record first, or mend the id.
",
    ),
    (
        "42",
        "refused 42: still mapped

A mapping row names the row or the media item, as base or as related.

To do: remove the mapping rows first (`map-drop`), or the relation with all of them (`relation-drop`).
",
    ),
    (
        "43",
        "refused 43: the mapping's name is taken

A table or a mapping has this name.

To do: nothing where the list was sent once more; else choose another name.
",
    ),
    (
        "44",
        "refused 44: no such relation

No relation has a mapping of this name.

To do: send the `relation` record first, or mend the name.
",
    ),
    (
        "45",
        "refused 45: the mapping row exists

The two are related by this mapping already.

To do: nothing.
",
    ),
    (
        "46",
        "refused 46: no such mapping row

The two are not related by this mapping.

To do: nothing where it was removed before; else mend the ids.
",
    ),
    (
        "47",
        "refused 47: the kinds do not suit the relation's name

The base is of kind attributes or media; the related table is of kind media where the name is media, and of kind
attributes where it is simple_attributes. A pyramid is no end of a relation.

To do: mend the tables or the name.
",
    ),
    (
        "48",
        "refused 48: a relation uses the table

The table is the base or the related table of a relation.

To do: remove the relation first (`relation-drop`).
",
    ),
];

/// What editions and kits are refused for.
pub const EDITIONS: [Entry; 8] = [
    (
        "50",
        "refused 50: the edition exists

An edition of this name stands, open or published. The name of a published one can't be used again.

To do: nothing where the list was sent once more; else choose another name.
",
    ),
    (
        "51",
        "refused 51: no such edition

No edition has this name.

To do: make it first (`edition,NAME`), or mend the name. `mmpkg list FILE` has all of them.
",
    ),
    (
        "52",
        "refused 52: the piece's number is not the next, and no equal piece stands under it

Pieces are numbered 1, 2, 3 and so on. A piece that stands may be sent again where it is equal. Of a kit: the edition
has another piece there, or more pieces than the kit.

To do: mend the number. Where the edition has another kit's pieces, `discard` it, or take the kit into one of its own.
",
    ),
    (
        "53",
        "refused 53: a piece is refused

The edition can't be published: piece PIECE of the line is refused with the number behind it, on what the pieces before
it gave. Nothing was changed.

To do: `mmpkg explain` with that last number, make good what it asks, and publish again; or `discard` the edition.
",
    ),
    (
        "54",
        "refused 54: too many pieces

An edition or a kit has at most 4096 pieces.

To do: go on in another edition. `mmpkg-kit` and `mmpkg-kit-between` part their kits by themselves.
",
    ),
    (
        "55",
        "refused 55: published already

The edition was published; it takes no more pieces, and can't be taken back.

To do: nothing where the list was sent once more; else make another edition.
",
    ),
    (
        "56",
        "refused 56: the number isn't the record's place in the list

The first field of each record of `kit.csv` is its place, 1, 2, 3 and so on.

To do: number the records anew.
",
    ),
    (
        "57",
        "refused 57: a file of the kit is missing, or its name is out of form

A name of a file is 1 to 100 of letters, digits, `_`, `-` and `.`, and doesn't begin with a `.`; so there is no blank in
it and no folder. For piece 0 the list itself is missing: FOLDER/kit.csv.

To do: put the file there, or rename it and mend the list. `mmpkg kit --words` tells the file.
",
    ),
];

/// What ends the work.
pub const FAULTS: [Entry; 5] = [
    (
        "90",
        "fault 90: memory was refused

A package of 1 GB wants about 1 GB of memory to be opened. What was answered `ok` before stands.

To do: end other programs, and do it again. A package past a machine's memory has to be opened on a larger one.
",
    ),
    (
        "91",
        "fault 91: the file could not be read or written

In front of any answer one of these is the cause, and each can be asked of the system:
  - another program has the file: end it (`fuser -v FILE` names it; `serve` and `desk` have it as long as they run)
  - the disk is full (`df -h .`): free as much room as the journal FILE-wal has; nothing that was answered `ok` is lost
  - the file, its journal or the folder can't be written (`ls -ld . FILE*`), as on a card with its lock on: copy it
  - the folder isn't there, as for `mmpkg init /nosuch/x.mmpkg`
  - GDAL or QGIS wrote into it: `mmpkg-repair-gis FILE OUT.mmpkg`
  - it is no database, was cut short, or lacks rows that others refer to: go back to a copy
In a run or an import: the command under way may stand or not; find out why, and send the list or the kit again.
Behind the answers: the files could not be closed. Keep both, and see what `mmpkg check FILE` says.

To do: go through the causes from above.
",
    ),
    (
        "92",
        "fault 92: an earlier command failed, so the file has to be opened again

To do: start the program again.
",
    ),
    (
        "96",
        "fault 96: the input failed

The list could not be read to its end, or a file of the kit, or the clock; for `serve` and `desk`, the port is in use.
As a page fault: a client said nothing for a second, or stopped; the next connection is served.

To do: mend it, and do it again; of a page fault, nothing. What was answered `ok` stands.
",
    ),
    (
        "97",
        "fault 97: the output failed

An answer could not be printed, as into a pipe that ended or a file on a full disk; as a page fault, a client went away.

To do: see what stands by `mmpkg list FILE`, and send the rest; of a page fault, nothing.
",
    ),
];

/// What a file is, where it is no package.
pub const OPENINGS: [Entry; 5] = [
    (
        "93",
        "not a package 93: of another version

A package of profile 1 tells lengths in millimetres; any other version is of a later program.

To do: `mmpkg migrate FILE`, once, for one of profile 1.
",
    ),
    (
        "94",
        "not a package 94: no package, or no such file

The file is missing or empty, or is another program's database.

To do: look for the right path; or make a package there with `mmpkg init FILE`.
",
    ),
    (
        "95",
        "not a package 95: its version is told in another form

Another program changed the file.

To do: `mmpkg-repair-gis FILE OUT.mmpkg`, or go back to a copy.
",
    ),
    (
        "98",
        "not a package 98: its bytes are not kept once each

Another program changed the file, or added bytes that nothing names.

To do: `mmpkg-repair-gis FILE OUT.mmpkg`, or go back to a copy.
",
    ),
    (
        "empty",
        "not empty: the file, or its journal, holds bytes

`init` makes a package in a file that is missing or empty, and changes nothing else.

To do: choose another path. Where a journal FILE-wal is left over from a package that was removed, remove it too.
",
    ),
];

/// The sixteen rules.
pub const RULES: [Entry; 16] = [
    (
        "Q1",
        "rule Q1: the three given systems stand

A package has the systems 4326, -1 and 0 with their texts.

To do: another program changed the file: `mmpkg-repair-gis FILE OUT.mmpkg`, or go back to a copy.
",
    ),
    (
        "Q2",
        "rule Q2: a table's system stands

The system that a table names is in the package, and no pyramid names 0 or 4326.

To do: another program changed the file: `mmpkg-repair-gis FILE OUT.mmpkg`, or go back to a copy.
",
    ),
    (
        "Q3",
        "rule Q3: identifiers are distinct

No two tables have one identifier.

To do: another program changed the file: `mmpkg-repair-gis FILE OUT.mmpkg`, or go back to a copy.
",
    ),
    (
        "Q4",
        "rule Q4: names have their form

Tables, mappings and editions have names of small letters, digits and `_`, and no mapping has a table's name.

To do: another program changed the file: `mmpkg-repair-gis FILE OUT.mmpkg`, or go back to a copy.
",
    ),
    (
        "Q5",
        "rule Q5: tables, kinds and matrix sets belong together

Each table has a kind, each pyramid a matrix set with its system and extent, and nothing else has one.

To do: another program changed the file: `mmpkg-repair-gis FILE OUT.mmpkg`, or go back to a copy.
",
    ),
    (
        "Q6",
        "rule Q6: extents are not empty

In each extent MIN_X is less than MAX_X and MIN_Y less than MAX_Y.

To do: another program changed the file: `mmpkg-repair-gis FILE OUT.mmpkg`, or go back to a copy.
",
    ),
    (
        "Q7",
        "rule Q7: a matrix spans its pyramid's extent

The extent is the matrix's tiles times their pixels times a pixel's size, both ways.

To do: another program changed the file: `mmpkg-repair-gis FILE OUT.mmpkg`, or go back to a copy.
",
    ),
    (
        "Q8",
        "rule Q8: a higher zoom has the smaller pixel size

To do: another program changed the file: `mmpkg-repair-gis FILE OUT.mmpkg`, or go back to a copy.
",
    ),
    (
        "Q9",
        "rule Q9: in a pyramid of kind two, the next zoom halves the pixel size

To do: another program changed the file: `mmpkg-repair-gis FILE OUT.mmpkg`, or go back to a copy.
",
    ),
    (
        "Q10",
        "rule Q10: tiles lie in a matrix at their zoom

To do: another program changed the file: `mmpkg-repair-gis FILE OUT.mmpkg`, or go back to a copy.
",
    ),
    (
        "Q11",
        "rule Q11: rows and media are of tables of their kind

To do: another program changed the file: `mmpkg-repair-gis FILE OUT.mmpkg`, or go back to a copy.
",
    ),
    (
        "Q12",
        "rule Q12: relations suit the kinds of their tables

To do: another program changed the file: `mmpkg-repair-gis FILE OUT.mmpkg`, or go back to a copy.
",
    ),
    (
        "Q13",
        "rule Q13: mapping rows name what stands

To do: another program changed the file: `mmpkg-repair-gis FILE OUT.mmpkg`, or go back to a copy.
",
    ),
    (
        "Q14",
        "rule Q14: the extension rows are those that are wanted

To do: another program changed the file: `mmpkg-repair-gis FILE OUT.mmpkg`, or go back to a copy.
",
    ),
    (
        "Q15",
        "rule Q15: pieces of open editions are numbered without a gap

To do: another program changed the file: `mmpkg-repair-gis FILE OUT.mmpkg`, or go back to a copy.
",
    ),
    (
        "Q16",
        "rule Q16: numbers and texts are within their limits

To do: another program changed the file: `mmpkg-repair-gis FILE OUT.mmpkg`, or go back to a copy.
",
    ),
];
