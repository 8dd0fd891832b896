//! Room made by moves, where segments are sparse: tests of `lsa_move`.

use lsa_kinds::Kind;
use lsa_move::{Ensured, compact_one, ensure};
use lsa_region::Region;
use std::test::Fail;

const DUMMY: [u8; 34] = [7; 34];

// Makes a dummy of 88 bytes, where there is room, and frees it at once if it is to go.
fn make(region: &mut Region<4096>, goes: bool) {
    if region.spare() < 88 {
        return;
    }
    let dummy = region.alloc_obj(Kind::Dummy, &DUMMY);
    if goes {
        region.free_obj(dummy);
    }
}

// Makes so many dummies.
fn make_all(region: &mut Region<4096>, count: u64, goes: bool) {
    for _ in 0..count {
        make(region, goes);
    }
}

// 46 dummies of 88 bytes fill a segment of 4096 bytes. Of the first 46 only the last one stays, and it is moved.
#[test]
fn room_by_one_compaction(rt: HostRuntime) -> Result<(), Fail> {
    let mut region = Region::<4096>::open(rt.alloc(), 4)?;
    assert_eq!(rt; (region.spare(), region.free()), (10752, 3));
    for (count, goes, spare) in [
        (1, true, 10664),
        (44, true, 7168),
        (1, false, 7168),
        (1, false, 7080),
        (46, false, 3496),
    ] {
        make_all(&mut region, count, goes);
        assert_eq!(rt; region.spare(), spare);
    }
    assert_eq!(rt; (region.free(), region.live()), (1, 4224));
    assert!(rt; compact_one(&mut region));
    assert_eq!(rt;
        (region.moved(), region.free(), region.spare()),
        (1, 2, 6992)
    );
    assert!(rt; !compact_one(&mut region));
    assert_eq!(rt; ensure(&mut region, 3584), Ensured::Ready);
    assert_eq!(rt; (region.compacted(), region.live()), (1, 4224));
    Ok(())
}

// 93 dummies stay: the region is tight, and has room for 3496 bytes and no more. Where the first 45 go, room is made.
#[test]
fn full_where_nothing_is_sparse(rt: HostRuntime) -> Result<(), Fail> {
    for (gone, answer) in [(0u64, Ensured::Full), (45, Ensured::Ready)] {
        let mut region = Region::<4096>::open(rt.alloc(), 4)?;
        make_all(&mut region, gone, true);
        make_all(&mut region, 93 - gone, false);
        assert_eq!(rt; ensure(&mut region, 3496), Ensured::Ready);
        assert_eq!(rt; region.compacted(), 0);
        assert_eq!(rt; ensure(&mut region, 3584), answer);
    }
    Ok(())
}
