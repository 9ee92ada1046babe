use super::*;
use std::test::Fail;

#[test]
fn no_more_than_the_front_is_read(rt: HostRuntime) -> Result<(), Fail> {
    let all = vec![in rt.alloc(); 7u8; 40961]?;
    let mut room = [0u8; MOST];
    for (given, want) in [(0, 0), (3, 3), (40960, 40960), (40961, 40960)] {
        let length = read_front(all.get(..given).ok_or("fewer")?, &mut room)?;
        assert_eq!(rt; length, want, "of {given} bytes");
    }
    Ok(())
}
