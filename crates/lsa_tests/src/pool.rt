//! What is spare and what is free while segments fill: a test of `lsa_pool`.

use lsa_pool::Pool;
use std::test::Fail;

// 46 objects of 88 bytes fill a segment of 4096 bytes, of which 45 go again.
#[test]
fn room_of_four_segments(rt: HostRuntime) -> Result<(), Fail> {
    let mut pool = Pool::<4096>::new(rt.alloc(), 4)?;
    assert_eq!(rt;
        (pool.spare(), pool.free(), pool.sparsest()),
        (10752, 3, None)
    );
    pool.credit(0, 88);
    assert_eq!(rt; pool.spare(), 10664);
    pool.credit(0, 3960);
    assert_eq!(rt; pool.spare(), 7168);
    pool.close(0);
    let next = pool.take();
    pool.credit(next, 88);
    assert_eq!(rt; (pool.spare(), pool.free()), (7080, 2));
    Ok(())
}
