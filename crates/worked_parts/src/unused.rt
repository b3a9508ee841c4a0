//! Public calls that the program does not make.
use dom_base::As;
use network_links::find_adjacency;
use request_table::Requests;
use std::test::Fail;

#[test]
fn each_is_called(rt: HostRuntime) -> Result<(), Fail> {
    let table: Requests<u32> = Requests::new(rt.alloc())?;
    assert!(rt; table.is_empty());
    let adjacencies = [(As(0), As(2)), (As(1), As(3))];
    assert_eq!(rt; find_adjacency(&adjacencies, As(3), As(1)), Some(1));
    assert_eq!(rt; find_adjacency(&adjacencies, As(3), As(2)), None);
    Ok(())
}
