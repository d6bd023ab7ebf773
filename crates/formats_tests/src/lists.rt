use item_list::Items;

#[test]
fn an_item_is_added_at_the_end(rt: HostRuntime) {
    let mut items = Items::new(Vec::new(rt.alloc()));
    assert!(rt; items.push(7u8).is_ok() && items.push(9).is_ok());
    assert!(rt; items.as_slice() == [7, 9].as_slice());
    assert!(rt; items.into_vec().pop() == Some(9));
}
