// The outside call: the checker first, then the page list's length, then the pages.
ghost use Rattle.std.specs.Prelude.{◌≡◌};
ghost use Rattle.numbers.specs.Told.{told};
ghost use Rattle.verify.specs.Promise.{lent_lists};
ghost use Rattle.page.specs.Page.{outcome_of_page};
ghost use Rattle.page.specs.Promise.{page_exit, OnPaper};

use crate::layout::{page_need, put_pages};
use graph::words::word;
use numbers::Refused;
use verify::check;

// The pages of a result that passes the checker go to the front of the page list. File, source,
// distances, parents, offsets, targets and marks are the checker's. Its answer is tested and not handed on
// by `?`, so that the edit `page_wrong_printed` changes a test.
pub fn page(
    file: &[u8],
    source: usize,
    distances: &[u16],
    parents: &[u16],
    offsets: &mut [u16],
    targets: &mut [u16],
    marks: &mut [u16],
    bytes: &mut [u8],
) -> Result<(), Refused>
    ensures bytes_after { page_exit (told result) (lent_lists offsets.new targets.new marks.new) bytes.new
        ≡ outcome_of_page file.now source distances.now parents.now
        (lent_lists offsets.old targets.old marks.old)
        bytes.old }
    ensures on_paper { OnPaper file.now source distances.now parents.now (told result) bytes.new }
{
    let checked = check(file, source, distances, parents, offsets, targets, marks);
    let refused = checked != Ok(());
    if refused {
        return checked;
    }
    let n = word(file, 0);
    if bytes.len() < page_need(n) {
        return Err(Refused::ShortList);
    }
    put_pages(bytes, n, distances, parents);
    Ok(())
}
