//! Tables of cases, and the one player of all tables.

use std::alloc::Global;
use std::test::Fail;

/// One row of a table.
pub(crate) trait Case {
    /// What the row shows.
    fn name(&self) -> &'static str;

    /// Whether it is so.
    fn is_so(&self, alloc: Global) -> Result<bool, Fail>;
}

/// What the first row shows that is not so.
pub(crate) fn first_not_so<C: Case>(
    alloc: Global,
    table: &[C],
) -> Result<Option<&'static str>, Fail> {
    for case in table {
        if !case.is_so(alloc)? {
            return Ok(Some(case.name()));
        }
    }
    Ok(None)
}
