// The circuit MUF over a lent list of Es records.
ghost use Rattle.std.specs.Prelude.{◌≡◌, length};
ghost use Rattle.muf.specs.Sporadic.{start_of, es_from};
ghost use Rattle.muf.specs.Domain.{taken_rows};
ghost use Rattle.muf.specs.Says.{MufSays};
ghost use Rattle.muf.specs.LentRecords.{es_row_at, records_muf_of, records_after_of};

use crate::MufAnswer;
use crate::sporadic::EsSearch;
use layer_mufs::PathNumbers;
use layers::{EsParams, IonoState};
use refusal::Refusal;

// The rows in order, at most km of them.
fn search(es: &[EsParams], km: usize, c: PathNumbers) -> Result<EsSearch, Refusal>
    ensures { result ≡ es_from (es_row_at es.now) c (taken_rows (length es.now) km) 0 start_of }
{
    let n = crate::muf_domain::rows_taken(es.len(), km);
    crate::sporadic::search(|k| es[k], n, c)
}

// The MUF hour; records past km are not read. Only the controlling record's lower decile is
// rewritten, and a call that is refused leaves all as they came. The search is the last part that
// can be refused, so it may come first: it reads nothing that the others work out.
// Stays: s, es, f2d, clat and clck are the Rust's own parameters, in its order; c is its last four.
pub fn curmuf_records(
    s: IonoState,
    es: &mut [EsParams],
    f2d: &[f32],
    clat: &[f32],
    clck: &[f32],
    c: PathNumbers,
) -> Result<MufAnswer, Refusal>
    ensures answer { result ≡ records_muf_of s es.old f2d.now clat.now clck.now c }
    ensures records_after { es.new ≡ records_after_of s es.old f2d.now clat.now clck.now c }
    ensures muf_says { MufSays result s (es_from (es_row_at es.old) c (taken_rows (length es.old) s.km) 0 start_of) f2d.now clat.now clck.now c }
{
    let found = search(es, s.km, c);
    let d = crate::muf_from_search(s, found, f2d, clat, clck, c)?;
    crate::es_records::rewrite(es, d.rewrite);
    Ok(d.answer)
}
