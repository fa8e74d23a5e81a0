//! Words of per-CPU counters, what is added to them, and where an addition is folded.

use std::test::Fail;
use wbt_counter::{
    Count, Plan, addend_of, context_batch, count_of, domain_batch, fold_addend, local_of, own_word,
    pack, plan_add, stat_error, version_of,
};

#[test]
fn batches_and_errors_grow_with_the_cpus(rt: HostRuntime) -> Result<(), Fail> {
    assert_eq!(rt;
        (context_batch(1), stat_error(1), domain_batch(1)),
        (8, 8, 32)
    );
    assert_eq!(rt;
        (context_batch(2), stat_error(2), domain_batch(2)),
        (16, 32, 32)
    );
    assert_eq!(rt;
        (context_batch(4), stat_error(4), domain_batch(4)),
        (24, 96, 32)
    );
    assert_eq!(rt;
        (context_batch(64), stat_error(64), domain_batch(64)),
        (56, 3584, 128)
    );
    Ok(())
}

#[test]
fn folds_where_the_batch_is_reached(rt: HostRuntime) -> Result<(), Fail> {
    assert_eq!(rt; plan_add(30, 1, 32), Plan::Keep { local: 31 });
    assert_eq!(rt; plan_add(31, 1, 32), Plan::Fold { delta: 32 });
    assert_eq!(rt; plan_add(-31, -1, 32), Plan::Fold { delta: -32 });
    Ok(())
}

#[test]
fn a_word_holds_its_version_and_count(rt: HostRuntime) -> Result<(), Fail> {
    assert_eq!(rt; pack(0, 0), 8388608);
    assert_eq!(rt; pack(3, -2), 58720254);
    assert_eq!(rt; version_of(58720254), 3);
    assert_eq!(rt; count_of(58720254), -2);
    assert_eq!(rt; pack(1099511627775, 8388607), 18446744073709551615);
    Ok(())
}

#[test]
fn an_own_word_holds_a_number_of_either_sign(rt: HostRuntime) -> Result<(), Fail> {
    assert_eq!(rt;
        (own_word(0), own_word(-1), own_word(31)),
        (4294967296, 4294967295, 4294967327)
    );
    assert_eq!(rt; (local_of(4294967296), local_of(4294967295)), (0, -1));
    Ok(())
}

#[test]
fn an_event_is_added_as_it_wraps(rt: HostRuntime) -> Result<(), Fail> {
    assert_eq!(rt; (addend_of(1), addend_of(-1)), (1, 18446744073709551615));
    assert_eq!(rt; own_word(7).wrapping_add(addend_of(-1)), own_word(6));
    assert_eq!(rt; own_word(-32).wrapping_sub(addend_of(-32)), own_word(0));
    Ok(())
}

#[test]
fn a_fold_makes_the_next_version(rt: HostRuntime) -> Result<(), Fail> {
    assert_eq!(rt; (fold_addend(32), fold_addend(-32)), (16777248, 16777184));
    assert_eq!(rt; pack(0, 0) + fold_addend(-32), pack(1, -32));
    assert_eq!(rt; pack(1, -32) + fold_addend(32), pack(2, 0));
    Ok(())
}

#[test]
fn a_sum_below_zero_reads_as_no_pages(rt: HostRuntime) -> Result<(), Fail> {
    assert_eq!(rt;
        Count {
            version: 2,
            value: -3
        }
        .reading(),
        0
    );
    assert_eq!(rt;
        Count {
            version: 2,
            value: 64
        }
        .reading(),
        64
    );
    Ok(())
}
