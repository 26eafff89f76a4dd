//! Records and their answers, worked from the table of the records and their limits.

use crate::lines::fields_of;
use mm_base::{read_command, read_piece};
use mm_definitions::answers::ReadFault;
use mm_definitions::commands::{Command, Piece};
use mm_definitions::places::TilePlace;
use std::alloc::Global;
use std::fmt::Write;

/// 0 where a record was read, the number of its refusal, or 90.
fn number_of<T: Drop>(read: Result<T, ReadFault>) -> u8 {
    match read {
        Ok(_value) => 0,
        Err(fault) => match fault {
            ReadFault::Refused(refusal) => refusal.number(),
            ReadFault::Memory => 90,
        },
    }
}

/// So many `a`.
fn letters(alloc: Global, count: u32) -> Option<String> {
    let mut text = String::new(alloc);
    for _ in 0..count {
        text.push('a').ok()?;
    }
    Some(text)
}

/// The record with so many `a` in place of a number in brackets, where it has one.
fn filled(alloc: Global, record: &str) -> Option<String> {
    let mut text = String::new(alloc);
    let Some((front, rest)) = record.split_once('[') else {
        text.push_str(record).ok()?;
        return Some(text);
    };
    let (count, back) = rest.split_once(']')?;
    let letters = letters(alloc, count.parse::<u32>().ok()?)?;
    write!(text, "{front}{}{back}", letters.as_str()).ok()?;
    Some(text)
}

/// What a record without quotes is answered, once it is filled.
fn answer_of(alloc: Global, record: &str) -> Option<u8> {
    let text = filled(alloc, record)?;
    let fields = fields_of(alloc, text.as_str(), ',')?;
    Some(number_of(read_command(alloc, fields.as_slice())))
}

/// The list of lines `NUMBER RECORD` with the numbers that are answered.
fn told(alloc: Global, list: &str) -> Option<String> {
    let mut text = String::new(alloc);
    for line in list.lines() {
        let (_, record) = line.split_once(' ')?;
        let number = answer_of(alloc, record)?;
        writeln!(text, "{number} {record}").ok()?;
    }
    Some(text)
}

/// A record a line, behind its answer: 0 where a command is read, else the number of the refusal. First every command
/// word; then records that are none, for their word, their number of fields, a number, bytes, a word field or a piece;
/// the least of several numbers; both sides of each limit of a number; texts and content types; names.
const RECORDS: &str = "\
0 srs,25832,ETRS89 / UTM zone 32N,EPSG,25832,projected metres,\n\
0 pyramid,base,Base map,25832,500000000000,5600000000000,501024000000,5601024000000,two\n\
0 matrix,base,0,1,1,256,256,4000000,4000000\n\
0 table,spots,attributes,Spots\n\
0 drop,base\n\
0 tile,base,1,0,1,89504e\n\
0 tile-drop,base,1,0,1\n\
0 row,spots,7,Well,,3\n\
0 row-drop,spots,7\n\
0 media,photos,3,image/jpeg,FFd8ff\n\
0 media-drop,photos,3\n\
0 relation,spot_photos,spots,photos,media\n\
0 relation-drop,spot_photos\n\
0 map,spot_photos,7,3\n\
0 map-drop,spot_photos,7,3\n\
0 edition,spring\n\
0 discard,spring\n\
0 stage,spring,1,tile,base,1,0,0,01\n\
0 stage,spring,2,map-drop,spot_photos,7,3\n\
0 publish,spring\n\
0 rehearse,spring\n\
10 \n\
10 tiles,base,1,0,1,aa\n\
10 Drop,base\n\
10 srs,5,A,NONE,1,undefined\n\
10 drop,base,\n\
10 drop\n\
10 srs,007,B,NONE,1,undefined,\n\
10 row,spots,7,Well,,+3\n\
10 pyramid,p,P,25832,-0,0,10000,10000,two\n\
10 row-drop,spots, 7\n\
10 row-drop,spots,\n\
10 row-drop,spots,-\n\
10 tile,base,1,0,0,a\n\
10 tile,base,1,0,0,0g\n\
10 pyramid,p,P,25832,0,0,10,10,three\n\
10 table,spots,tiles,Spots\n\
10 relation,m,spots,photos,features\n\
10 stage,spring,1,drop,base\n\
10 stage,spring,1\n\
10 stage,spring,x,row-drop,spots,7\n\
10 tile,gpkg_x,31,0,0,a\n\
11 row-drop,gpkg_x,0\n\
10 stage,gpkg_x,0,tile,base,31,0,0,a\n\
11 srs,0,A,NONE,1,undefined,\n\
0 srs,9007199254740992,A,NONE,1,undefined,\n\
11 srs,9007199254740993,A,NONE,1,undefined,\n\
11 srs,5,A,NONE,0,undefined,\n\
11 srs,99999999999999999999999999,A,NONE,1,undefined,\n\
0 pyramid,p,P,-1,0,0,10000,10000,two\n\
11 pyramid,p,P,-2,0,0,10000,10000,two\n\
0 pyramid,p,P,25832,-100000000000000,0,100000000000000,10000,other\n\
11 pyramid,p,P,25832,-100000000000001,0,10000,10000,two\n\
11 pyramid,p,P,25832,0,0,100000000000001,10000,two\n\
0 matrix,base,30,1073741824,1,4096,1,1000000000000,1\n\
11 matrix,base,31,1,1,256,256,4000000,4000000\n\
11 matrix,base,-1,1,1,256,256,4000000,4000000\n\
11 matrix,base,0,1073741825,1,256,256,4000000,4000000\n\
11 matrix,base,0,1,0,256,256,4000000,4000000\n\
11 matrix,base,0,1,1,4097,256,4000000,4000000\n\
11 matrix,base,0,1,1,256,0,4000000,4000000\n\
11 matrix,base,0,1,1,256,256,0,4000000\n\
11 matrix,base,0,1,1,256,256,4000000,1000000000001\n\
0 tile,base,30,1073741823,0,00\n\
11 tile,base,30,1073741824,0,00\n\
11 tile,base,31,0,0,aa\n\
11 tile,base,1,0,0,\n\
0 row,spots,9007199254740992,,,-1000000000000000\n\
11 row,spots,9007199254740993,,,0\n\
11 row,spots,1,,,1000000000000001\n\
11 row,spots,1,,,-1000000000000001\n\
11 media,photos,0,image/png,01\n\
11 map,m,1,0\n\
0 stage,spring,9007199254740992,row-drop,spots,7\n\
11 stage,spring,9007199254740993,row-drop,spots,7\n\
11 srs,5,,NONE,1,undefined,\n\
11 srs,5,A,NONE,1,,\n\
11 row,spots,1,a\0b,,0\n\
11 table,spots,attributes,\n\
11 table,spots,attributes,a\tb\n\
11 table,spots,attributes,a\x7fb\n\
0 table,spots,attributes,Überblick\n\
11 media,photos,3,image,01\n\
11 media,photos,3,image/png/x,01\n\
11 media,photos,3,image/,01\n\
11 media,photos,3,im age/png,01\n\
0 media,photos,3,a!#$&^_.+-9/Z,01\n\
12 drop,Base\n\
12 drop,1base\n\
0 drop,_base\n\
0 drop,b1_\n\
12 drop,\n\
12 drop,ba-se\n\
12 drop,gpkg\n\
12 drop,sqlite_x\n\
12 drop,mm_x\n\
0 drop,mmx\n\
12 relation,gpkg_x,spots,photos,media\n\
12 relation,m,spots,Photos,media\n\
12 stage,spring,1,row-drop,Spots,7\n\
12 edition,a\"b\n\
";

/// A record a line, behind its answer, with so many `a` in place of a number in brackets.
const LONG_RECORDS: &str = "\
0 drop,[60]\n\
12 drop,[61]\n\
0 srs,5,[1000],NONE,1,undefined,\n\
11 srs,5,[1001],NONE,1,undefined,\n\
0 srs,5,A,NONE,1,[8192],\n\
11 srs,5,A,NONE,1,[8193],\n\
0 srs,5,A,NONE,1,undefined,[1000]\n\
11 srs,5,A,NONE,1,undefined,[1001]\n\
0 row,spots,1,[1000],,0\n\
11 row,spots,1,[1001],,0\n\
0 row,spots,1,,[1000],0\n\
11 row,spots,1,,[1001],0\n\
0 table,spots,media,[1000]\n\
11 table,spots,media,[1001]\n\
0 media,photos,3,[64]/b,01\n\
11 media,photos,3,[65]/b,01\n\
";

#[test]
fn reads_each_record(rt: HostRuntime) {
    for list in [RECORDS, LONG_RECORDS] {
        let text = told(rt.alloc(), list).expect(&rt, "answers");
        assert_eq!(&rt; text.as_str(), list);
    }
}

/// A record of an organization of so many letters of two bytes each.
fn wide_record(alloc: Global, count: u32) -> Option<String> {
    let mut text = String::from_str(alloc, "srs,5,A,").ok()?;
    for _ in 0..count {
        text.push('é').ok()?;
    }
    text.push_str(",1,undefined,").ok()?;
    Some(text)
}

#[test]
fn measures_no_letters(rt: HostRuntime) {
    let record = wide_record(rt.alloc(), 501).expect(&rt, "a record");
    assert_eq!(&rt; answer_of(rt.alloc(), record.as_str()), Some(11));
}

/// What the record of a tile of so many digits is answered.
fn tile_answer(alloc: Global, count: usize) -> Option<u8> {
    let digits = vec![in alloc; b'0'; count].ok()?;
    let mut record = String::from_str(alloc, "tile,base,1,0,0,").ok()?;
    record
        .push_str(std::str::from_utf8(digits.as_slice()).ok()?)
        .ok()?;
    answer_of(alloc, record.as_str())
}

#[test]
fn limits_the_bytes_of_tiles(rt: HostRuntime) {
    for (count, wanted) in [(2 * 1048576, 0), (2 * 1048577, 11)] {
        assert_eq!(&rt;
            tile_answer(rt.alloc(), count),
            Some(wanted),
            "at {count} digits"
        );
    }
}

fn is_the_well(read: &Result<Command, ReadFault>) -> bool {
    match read {
        Ok(
            Command::Edit(
                Piece::Row {
                    table,
                    id,
                    title,
                    note,
                    amount,
                },
            ),
        ) => {
            table.as_str() == "spots"
                && id.get() == 7
                && title.as_str() == "Well"
                && note.as_str() == "deep"
                && amount.get() == -3
        }
        _ => false,
    }
}

fn is_the_tile(read: &Result<Piece, ReadFault>) -> bool {
    match read {
        Ok(
            Piece::Tile {
                table,
                place,
                bytes,
            },
        ) => {
            table.as_str() == "base"
                && Some(*place) == TilePlace::new(1, 2, 3)
                && bytes.as_slice() == b"\xff\xd8".as_slice()
        }
        _ => false,
    }
}

fn keeps_the_well(alloc: Global) -> Option<bool> {
    let fields = fields_of(alloc, "row,spots,7,Well,deep,-3", ',')?;
    Some(is_the_well(&read_command(alloc, fields.as_slice())))
}

fn keeps_the_tile(alloc: Global) -> Option<bool> {
    let fields = fields_of(alloc, "tile,base,1,2,3,FfD8", ',')?;
    Some(is_the_tile(&read_piece(alloc, fields.as_slice())))
}

#[test]
fn keeps_the_fields_of_a_record(rt: HostRuntime) {
    assert_eq!(&rt; keeps_the_well(rt.alloc()), Some(true));
    assert_eq!(&rt; keeps_the_tile(rt.alloc()), Some(true));
}
