use crate::expected::{equal, holds};
use iox_store::{Many, One, is_length};

#[test]
fn one_element_is_one_and_many_are_any_number(rt: HostRuntime) {
    for elements in 0..4usize {
        equal(&rt, is_length::<One<u64>>(elements), elements == 1);
        holds(&rt, is_length::<Many<u64>>(elements));
    }
}
