//! What is stopped: the packages that it begins with, and what is done on them.

use mm_test_packages::{FINER, PYRAMID, RELATED};
use std::alloc::Global;
use std::fmt::Write;

/// What stands before the work begins.
#[derive(Clone, Copy)]
pub(crate) enum Start {
    /// Two files of no bytes.
    Blank,
    /// A new package.
    New,
    /// A package with tiles, rows, media, a relation and an open edition.
    Filled,
    /// The same, whose log was not copied when its files were left.
    Logged,
    /// The same, where the edition has five pieces.
    Staged,
    /// The same, where it has 150.
    Crowded,
    /// A pyramid of one matrix, and an edition that brings the next one with a tile of it.
    Finer,
    /// A package of profile 1.
    Older,
}

/// A row, a medium and a tile more, and an edition.
const MORE: &str = "row,spots,9,Gate,,0
media,photos,5,image/png,01
tile,base,1,1,1,aa
edition,k
";

const STAGES: &str = "stage,k,1,tile,base,1,0,0,01
stage,k,2,tile,base,1,1,0,02
stage,k,3,row,spots,8,Gate,,0
stage,k,4,media,photos,4,image/png,03
stage,k,5,map,spot_photos,8,4
";

const BRINGS_FINER: &str = "edition,z
stage,z,1,matrix,base,1,2,2,256,256,2000000,2000000
stage,z,2,tile,base,1,1,1,aa
";

/// The records that make a package whose edition has 150 rows as its pieces.
fn crowded(alloc: Global) -> Option<String> {
    let mut text = format!(in alloc; "{PYRAMID}{FINER}{RELATED}{MORE}").ok()?;
    for number in 1..151u32 {
        writeln!(
            text,
            "stage,k,{number},row,spots,{},Gate,,0",
            number.saturating_add(100)
        )
        .ok()?;
    }
    Some(text)
}

impl Start {
    /// How many calls lie between two that fail: a long work is stopped at some of its calls alone.
    pub(crate) fn stride(self) -> u64 {
        match self {
            Start::Crowded => 37,
            _ => 1,
        }
    }

    /// The records that make the package from a new one.
    pub(crate) fn records(self, alloc: Global) -> Option<String> {
        let text = match self {
            Start::Blank | Start::New => Ok(String::new(alloc)),
            Start::Filled | Start::Logged => {
                format!(in alloc; "{PYRAMID}{FINER}{RELATED}{MORE}")
            }
            Start::Staged => format!(in alloc; "{PYRAMID}{FINER}{RELATED}{MORE}{STAGES}"),
            Start::Crowded => return crowded(alloc),
            Start::Finer => format!(in alloc; "{PYRAMID}{BRINGS_FINER}"),
            Start::Older => format!(in alloc; "{PYRAMID}{FINER}"),
        };
        text.ok()
    }
}

/// What is done.
#[derive(Clone, Copy)]
pub(crate) enum Work {
    /// A package is made.
    Make,
    /// Records are run, each of which is accepted.
    Run(&'static str),
    /// A kit of these records is imported into the edition `k`.
    Import(&'static str),
    /// Records are posted to a desk in one request, each of which is accepted.
    Post(&'static str),
    /// A package is migrated.
    Migrate,
}

impl Work {
    /// How many steps the work has, each of which may stand without the next.
    pub(crate) fn steps(self) -> usize {
        match self {
            Work::Make | Work::Migrate => 1,
            Work::Run(records) | Work::Import(records) | Work::Post(records) => count_lines(
                records,
            ),
        }
    }
}

fn count_lines(text: &str) -> usize {
    let mut count = 0usize;
    for _ in text.lines() {
        count = count.saturating_add(1);
    }
    count
}

/// The first so many lines of a text, with their ends.
pub(crate) fn first_lines(text: &str, count: usize) -> &[u8] {
    let mut length = 0usize;
    let mut left = count;
    for line in text.lines() {
        if left > 0 {
            left -= 1;
            length = length.saturating_add(line.len()).saturating_add(1);
        }
    }
    text.as_bytes().get(..length).unwrap_or(b"")
}

/// What is stopped.
#[derive(Clone, Copy)]
pub(crate) struct Case {
    pub(crate) name: &'static str,
    pub(crate) start: Start,
    pub(crate) work: Work,
}

/// The five records of a kit.
const KIT: &str = "1,tile,base,1,0,0,a.bin
2,tile,base,1,1,0,b.bin
3,row,spots,8,Gate,,0
4,media,photos,4,image/png,c.bin
5,map,spot_photos,8,4
";

/// What isn't one command on a package that has all.
pub(crate) const WHOLES: [Case; 7] = [
    Case {
        name: "init",
        start: Start::Blank,
        work: Work::Make,
    },
    Case {
        name: "a list of three",
        start: Start::New,
        work: Work::Run(PYRAMID),
    },
    Case {
        name: "a list of three at a desk",
        start: Start::New,
        work: Work::Post(PYRAMID),
    },
    Case {
        name: "a kit of five",
        start: Start::Filled,
        work: Work::Import(KIT),
    },
    Case {
        name: "behind a log",
        start: Start::Logged,
        work: Work::Run("edition,m\n"),
    },
    Case {
        name: "publish with a matrix",
        start: Start::Finer,
        work: Work::Run("publish,z\n"),
    },
    Case {
        name: "migrate",
        start: Start::Older,
        work: Work::Migrate,
    },
];

/// Publishing so many pieces that commits of a hundred each would show.
pub(crate) const CROWDED: [Case; 1] = [Case {
    name: "publish 150 pieces",
    start: Start::Crowded,
    work: Work::Run("publish,k\n"),
}];

/// Commands of systems and tables, each accepted once on the package where the edition has five pieces.
pub(crate) const TABLES: [&str; 5] = [
    "srs,5001,A,NONE,1,undefined,\n",
    "pyramid,q,Q,25832,0,0,1000,1000,other\n",
    "matrix,base,2,4,4,256,256,1000000,1000000\n",
    "table,t,attributes,T\n",
    "drop,base\n",
];

/// Commands of tiles, rows and media, each accepted once on that package.
pub(crate) const CONTENT: [&str; 6] = [
    "tile,base,1,0,1,89504e\n",
    "tile-drop,base,1,1,1\n",
    "row,spots,10,Well,,3\n",
    "row-drop,spots,9\n",
    "media,photos,6,image/png,02\n",
    "media-drop,photos,5\n",
];

/// Commands of relations, each accepted once on that package.
pub(crate) const RELATIONS: [&str; 4] = [
    "relation,rr,spots,spots,simple_attributes\n",
    "relation-drop,spot_photos\n",
    "map,spot_photos,9,5\n",
    "map-drop,spot_photos,7,3\n",
];

/// Commands of editions, each accepted once on that package.
pub(crate) const EDITIONS: [&str; 5] = [
    "edition,m\n",
    "stage,k,6,row-drop,spots,9\n",
    "discard,k\n",
    "publish,k\n",
    "rehearse,k\n",
];

/// The case of a command on that package.
pub(crate) fn case_of(record: &'static str) -> Case {
    let name = match record.split_once(',') {
        Some((word, _)) => word,
        None => record,
    };
    Case {
        name,
        start: Start::Staged,
        work: Work::Run(record),
    }
}
