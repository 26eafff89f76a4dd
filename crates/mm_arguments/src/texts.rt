//! The texts behind the help of a subcommand: what a crew without a network looks up.

/// What `--version` prints behind the program's name.
pub(crate) const VERSION: &str = "0.2 (packages of profile 2)";

/// Behind `run -h`, where `help run` has more.
pub(crate) const SHORT_RUN: &str = "Example: mmpkg run map.mmpkg < records.csv
Line N answers record N: `N ok`, `N refused R`, or `N fault F`, which ends the run.";

/// Behind `kit -h`, where `help kit` has more.
pub(crate) const SHORT_KIT: &str = "Example: mmpkg kit map.mmpkg spring kits/spring
Prints `kit complete N`, `kit refused PIECE R`, or `kit fault F`.";

/// Behind `migrate -h`, where `help migrate` has the same.
pub(crate) const SHORT_MIGRATE: &str =
    "Done once, in one commit; after a loss of power it can be done again. A package in micrometres is only checked.
The file can't go back. Prints `migrate ok`, or `rule Qk` for the rule that fails.";

/// Behind `list -h`, where `help list` has the same.
pub(crate) const SHORT_LIST: &str =
    "A line for each table: name, kind, how many tiles, rows or media, last change, identifier.
Then a line for each edition: its name, and `open` with the number of its pieces, or `published`.";

/// Behind `show -h`, where `help show` has more.
pub(crate) const SHORT_SHOW: &str = "Example: mmpkg show map.mmpkg spots 7
Prints `row,TABLE,ID,TITLE,NOTE,AMOUNT` for each row, by rising id, or `refused R` where there is none to show.";

/// Behind `serve -h`, where `help serve` has more.
pub(crate) const SHORT_SERVE: &str = "Example: mmpkg serve map.mmpkg --port 8080
Routes: /tiles/TABLE/Z/COLUMN/ROW, /media/TABLE/ID, /related/TABLE/ID, /contents.";

/// Behind `desk -h`, where `help desk` has more.
pub(crate) const SHORT_DESK: &str = "Example: mmpkg desk map.mmpkg --port 8090 --page viewer
Prints the address with its key; GET shows as `serve` does, POST /KEY/records runs a list as `run` does.";

/// Behind the help of the whole program.
pub(crate) const PROGRAM: &str =
    "Exit status: 0 all accepted, 1 something refused, 2 wrong arguments, 3 a fault, 4 not a package.
Tools beside it: mmpkg-crew, mmpkg-import, mmpkg-export, mmpkg-kit, mmpkg-viewer, mmpkg-kit-between, mmpkg-repair-gis.";

/// Behind `help init`.
pub(crate) const INIT: &str =
    "Prints `init ok`. Prints `not empty`, and changes nothing, where FILE or its journal FILE-wal holds a byte: where a
journal is left over from a package that was removed, remove it too. After a power loss during `init`, `check` tells
whether the package stands; where it does not, remove both files and do it again.";

/// Behind `help run`.
pub(crate) const RUN: &str = "Example: mmpkg run map.mmpkg < records.csv
Line N answers record N: `N ok`, `N refused R`, or `N fault F`, which ends the run. What is `ok` stays, also after a power loss.

Records, the fields parted by commas; a field may stand in double quotes:
  srs,ID,NAME,ORGANIZATION,ORGANIZATION_ID,DEFINITION,DESCRIPTION
  pyramid,TABLE,IDENTIFIER,SYSTEM,MIN_X,MIN_Y,MAX_X,MAX_Y,STEP     coordinates in micrometres; STEP is two or other
  matrix,TABLE,ZOOM,WIDTH,HEIGHT,TILE_WIDTH,TILE_HEIGHT,PIXEL_X,PIXEL_Y     pixel sizes in micrometres
  table,TABLE,KIND,IDENTIFIER     KIND is attributes or media
  drop,TABLE
  tile,TABLE,ZOOM,COLUMN,ROW,BYTES     bytes in hexadecimal
  tile-drop,TABLE,ZOOM,COLUMN,ROW
  row,TABLE,ID,TITLE,NOTE,AMOUNT
  row-drop,TABLE,ID
  media,TABLE,ID,CONTENT_TYPE,BYTES
  media-drop,TABLE,ID
  relation,MAPPING,BASE,RELATED,NAME     NAME is media or simple_attributes
  relation-drop,MAPPING
  map,MAPPING,BASE_ID,RELATED_ID
  map-drop,MAPPING,BASE_ID,RELATED_ID
  edition,EDITION
  discard,EDITION
  stage,EDITION,NUMBER,PIECE..     PIECE is a record of matrix, tile, tile-drop, row, row-drop, media, media-drop, map or map-drop
  publish,EDITION     all pieces at once, or none: `N refused 53 PIECE R`
  rehearse,EDITION     answers as publish would, and changes nothing

Refusals, which change nothing:
  10 no such record                        35 no such tile
  11 a number or length is out of limits   40 no such row
  12 a name is none                        41 no such media item
  20 the system exists                     42 the row or item is still mapped
  21 no such system                        43 the mapping's name is taken
  22 a geographic system                   44 no such relation
  23 the table's name is taken             45 the mapping row exists
  24 the identifier is taken               46 no such mapping row
  25 no such table                         47 the kinds do not suit the relation's name
  26 the table is of another kind          48 a relation uses the table
  27 the extent is empty                   50 the edition exists
  30 the zoom has a matrix                 51 no such edition
  31 the extent is not the product         52 not the next piece, and no equal one stands there
  32 pixel sizes out of order              53 a piece is refused
  33 no matrix at this zoom                54 too many pieces
  34 outside the matrix                    55 published already

Faults, which end the run; what was answered before stands:
  90 memory was refused   91 the file could not be read or written   92 open the file again
  96 the input failed     97 the output failed

`mmpkg explain 34` tells more of a number, and what to do then; --words writes what each refusal says to standard error.";

/// Behind `help kit`.
pub(crate) const KIT: &str = "Example: mmpkg kit map.mmpkg spring kits/spring
Prints `kit complete N`, `kit refused PIECE R`, or `kit fault F`; PIECE is a record's place in the list, 0 for none.

Records of FOLDER/kit.csv, where NO is the record's place, counted from 1, and FILE a file of FOLDER:
  NO,tile,TABLE,ZOOM,COLUMN,ROW,FILE
  NO,media,TABLE,ID,CONTENT_TYPE,FILE
  NO,matrix,..   NO,tile-drop,..   NO,row,..   NO,row-drop,..   NO,media-drop,..   NO,map,..   NO,map-drop,..     as `help run` has them

Refusals beside those of `help run`:
  11 the list or a file is too long, or a file is empty   51 no such edition
  52 another piece stands there, or the edition has more than the kit
  54 the record is past the 4,096th                       55 published already
  56 NO is not the record's place                         57 a file is missing, or its name is out of form";

/// Behind `help check`.
pub(crate) const CHECK: &str =
    "Prints `package ok`, or `rule Qk` for the rule that fails, or `not a package N`. The package stays as it is; commits
that stand in the journal FILE-wal alone are taken into FILE.

Rules:
  Q1 the three given systems stand               Q9 in a pyramid of kind two, the next zoom halves the pixel size
  Q2 a table's system stands                     Q10 tiles lie in a matrix at their zoom
  Q3 identifiers are distinct                    Q11 rows and media are of tables of their kind
  Q4 names have their form                       Q12 relations suit the kinds of their tables
  Q5 tables, kinds and matrix sets belong        Q13 mapping rows name what stands
  Q6 extents are not empty                       Q14 the extension rows are those that are wanted
  Q7 a matrix spans its pyramid's extent         Q15 pieces of open editions are numbered without a gap
  Q8 a higher zoom has the smaller pixel size    Q16 numbers and texts are within their limits

Not a package:
  93 of another version (1: `mmpkg migrate`)   94 no package, or no such file   95 its version is told in another form
  98 its bytes are not kept once each, as another program left them";

/// Behind `help show`.
pub(crate) const SHOW: &str = "Example: mmpkg show map.mmpkg spots > spots.csv
         mmpkg show map.mmpkg spots 7
Prints a record `row,TABLE,ID,TITLE,NOTE,AMOUNT` for each row of the table, by rising id, or for the row ID alone. `run`
takes these records as they are: on a package that has the table they write the same rows.

Prints `refused R` with status 1, and no record:
  12 TABLE is no name       25 no such table        26 a table of another kind       40 no such row
Prints `fault F` behind what was printed where a fault ended it.";

/// Behind `help desk`.
pub(crate) const DESK: &str = "Example: mmpkg desk map.mmpkg --port 8090 --page viewer
Prints the address to open, with its key; whoever has the key may ask, over 127.0.0.1 alone. The key is that of the
environment's MMPKG_KEY (16 to 64 letters, digits, - and _), or else a new one.

GET /KEY/PATH shows what `serve` shows at PATH, and at /rows/TABLE/ID the rows of an attributes table from ID on, by
rising id, 1,000 at most, as JSON. Media of other tables than --page's run no script in a browser.
POST /KEY/records, with Content-Type: text/csv and Content-Length, runs the body's records once it came whole, 16,777,216
bytes at most; each is answered by a line as in `run`, sent as the command stands.
POST /KEY/end ends the desk well: the file alone holds all then.
Else: 400 no request, or a body that was cut (nothing is run); 403 another Host, or another site's page; 404 no such
path, or not the key; 405 neither GET nor POST; 411 no length; 413 too long; 415 no text/csv.

Prints `page fault F` for a request that wasn't answered (no record of it was run), and `list fault F` where a list was
ended: by 97 since its lines could not be sent, by 90 or 91 since a command failed. Then the desk ends with 3, and the
next start goes on with what stands.";

/// Behind `help serve`.
pub(crate) const SERVE: &str = "Example: mmpkg serve map.mmpkg --port 8080
Routes: /tiles/TABLE/Z/COLUMN/ROW, /media/TABLE/ID, /related/TABLE/ID, /contents.

It listens on 127.0.0.1 alone, so that only this machine sees the page. Prints `page fault F` for a connection that met a
fault, and serves the next. A client that says nothing is given up after a second, one that stops after ten.
One program at a time may have the file: end `serve` before `run`, `kit` or `migrate`.";
