//! Each type of text is read once.

use mm_definitions::bytes::TileBytes;
use mm_definitions::content_types::ContentType;
use mm_definitions::identifiers::Identifier;
use mm_definitions::names::Name;
use mm_definitions::texts::Remark;
use std::alloc::AllocError;

#[test]
fn reads_texts(rt: HostRuntime) -> Result<(), AllocError> {
    let alloc = rt.alloc();
    assert!(&rt; Remark::read(alloc, "").is_ok());
    assert!(&rt; Identifier::read(alloc, "Base map").is_ok());
    assert!(&rt; ContentType::read(alloc, "image/png").is_ok());
    assert!(&rt; TileBytes::read(alloc, "00").is_ok());
    assert!(&rt; Remark::new(String::from_str(alloc, "a")?).is_some());
    assert!(&rt; Name::read("base").is_some());
    Ok(())
}
