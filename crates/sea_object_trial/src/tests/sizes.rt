//! The largest objects, scripts and histories, with memory enough.

use crate::tests::texts::{printed, repeated};
use std::alloc::{AllocError, Global};
use std::fmt::Write;
use std::test::Fail;

// The last line but one of a script's text.
fn last(alloc: Global, script: &str) -> Result<String, Fail> {
    let text = printed(alloc, script)?;
    let line = text.as_str().lines().rev().nth(1).unwrap_or("");
    Ok(String::from_str(alloc, line)?)
}

// An object of 16 MiB, which grows by 64 blocks a request, with its last byte.
fn large_object(alloc: Global) -> Result<String, AllocError> {
    let mut script = String::new(alloc);
    for part in 0..64u32 {
        let offset = part * 262_144;
        write!(script, "1 zero a {offset} 262144\n")?;
    }
    script.push_str("1 write a 16777215 x41 ; stat a ; read a 16777214 65536\n")?;
    Ok(script)
}

#[test]
fn an_object_of_16_mib(rt: HostRuntime) -> Result<(), Fail> {
    let script = large_object(rt.alloc())?;
    let line = last(rt.alloc(), script.as_str())?;
    assert_eq!(rt; line.as_str(), "1 65 done - n16777216 x0041");
    Ok(())
}

// A write of 65,536 bytes, which are read again.
fn large_write(alloc: Global, digits: &str) -> Result<String, AllocError> {
    let mut script = String::from_str(alloc, "1 write a 4095 x")?;
    for _ in 0..65_536 {
        script.push_str(digits)?;
    }
    script.push_str(" ; read a 4095 65536")?;
    Ok(script)
}

#[test]
fn a_write_of_64_kib_is_read_again(rt: HostRuntime) -> Result<(), Fail> {
    let script = large_write(rt.alloc(), "5a")?;
    let line = last(rt.alloc(), script.as_str())?;
    assert_eq!(rt; line.len(), 131_084);
    assert!(rt; line.as_str().starts_with("1 1 done - x5a5a5a"));
    assert!(rt; line.as_str().ends_with("5a5a"));
    Ok(())
}

// An object with 10,000 keys, and these requests behind it.
fn full_omap(alloc: Global, behind: &str) -> Result<String, AllocError> {
    let mut script = String::from_str(alloc, "1 touch a\n")?;
    for first in 0..625u32 {
        script.push_str("1 omap_setkeys a")?;
        for key in 0..16u32 {
            let number = 16 * first + key;
            write!(script, " k{number:04} x00112233445566778899aabbccddeeff")?;
        }
        script.push('\n')?;
    }
    script.push_str(behind)?;
    Ok(script)
}

const KEYS: &str = "1 omap_setkeys a new x
1 omap_setkeys a k0000 x01 ; omap_list a 1
1 omap_setkeys a k0000 x ; omap_setkeys a new x
1 omap_get a k0000
1 omap_rmkeys a k0001 ; omap_setkeys a new x ; omap_list a 2 k9999
1 omap_rmkeyrange a k0000 k9999 32 ; omap_list a 1
1 omap_clear a ; omap_setkeys a new x ; omap_list a 64
";

const KEYS_PRINTED: &str = "
1 627 refused 1 OmapFull
1 628 done - p1 k0000 x01
1 629 refused 2 OmapFull
1 630 done x01
1 631 done - - p1 new x
1 632 done n32 p1 k0033 x00112233445566778899aabbccddeeff
1 633 done - - p1 new x
end 633 0
";

#[test]
fn an_omap_of_10000_keys(rt: HostRuntime) -> Result<(), Fail> {
    let script = full_omap(rt.alloc(), KEYS)?;
    let text = printed(rt.alloc(), script.as_str())?;
    assert!(rt; text.as_str().ends_with(KEYS_PRINTED));
    Ok(())
}

// An object with 64 attributes, and these requests behind it.
fn full_attributes(alloc: Global, behind: &str) -> Result<String, AllocError> {
    let mut script = String::from_str(alloc, "1 touch a\n")?;
    for key in 0..64u32 {
        write!(script, "1 setattr a k{key:02} x\n")?;
    }
    script.push_str(behind)?;
    Ok(script)
}

const ATTRIBUTES: &str = "1 setattr a new x
1 setattr a k63 x01 ; getattr a k63
1 rmattr a k00 ; setattr a new x ; setattr a k00 x
1 rmattr a k00 ; setattr a new x ; getattr a k00
";

const ATTRIBUTES_PRINTED: &str = "
1 66 refused 1 AttrFull
1 67 done - x01
1 68 refused 3 AttrFull
1 69 done - - none
end 69 0
";

#[test]
fn an_object_of_64_attributes(rt: HostRuntime) -> Result<(), Fail> {
    let script = full_attributes(rt.alloc(), ATTRIBUTES)?;
    let text = printed(rt.alloc(), script.as_str())?;
    assert!(rt; text.as_str().ends_with(ATTRIBUTES_PRINTED));
    Ok(())
}

// So many requests of each of 16 clients.
fn many_requests(alloc: Global, each: u32) -> Result<String, AllocError> {
    let mut script = String::new(alloc);
    for number in 0..each {
        for client in 1..=16u32 {
            write!(script, "{client} touch o{number} ; stat o{client}\n")?;
        }
    }
    Ok(script)
}

#[test]
fn requests_of_16_clients(rt: HostRuntime) -> Result<(), Fail> {
    let script = many_requests(rt.alloc(), 300)?;
    let line = last(rt.alloc(), script.as_str())?;
    assert_eq!(rt; line.as_str(), "16 300 done - n0");
    Ok(())
}

#[test]
fn a_client_has_10000_requests(rt: HostRuntime) -> Result<(), Fail> {
    let script = repeated(rt.alloc(), 10_000, "1 stat a\n", "2 stat a\n")?;
    let line = last(rt.alloc(), script.as_str())?;
    assert_eq!(rt; line.as_str(), "2 1 done none");
    let script = repeated(rt.alloc(), 10_000, "1 stat a\n", "2 stat a\n1 stat a\n")?;
    let text = printed(rt.alloc(), script.as_str())?;
    assert_eq!(rt; text.as_str(), "script 10002 TooManyRequests\n");
    Ok(())
}
