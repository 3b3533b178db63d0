// The full maps that the tests start from.
use full_map::FullMap;
use std::test::Fail;

// A map of some sizes, which the test fails without.
pub(crate) fn map(records: usize, terminals: usize) -> Result<FullMap, Fail> {
    FullMap::new(records, terminals).map_err(|_| Fail::new("sizes"))
}
