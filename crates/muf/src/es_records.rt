// The lower decile of the controlling Es record rewritten, in a lent list of records.
ghost use Rattle.std.specs.Prelude.{◌≡◌, length};
ghost use Rattle.muf.specs.Curmuf.{RowBelow};
ghost use Rattle.muf.specs.Records.{lower_rewritten, records_by};

use crate::sporadic::Rewrite;
use layers::EsParams;

// The record with this lower decile.
fn with_lower(e: EsParams, lower: f32) -> EsParams
    ensures { result ≡ lower_rewritten e lower }
{
    let mut fs = e.fs;
    fs[0] = lower;
    EsParams { fs, ..e }
}

// The controlling row's lower decile is rewritten, if a row controls.
pub fn rewrite(es: &mut [EsParams], w: Option<Rewrite>)
    requires { RowBelow (length es.old) w }
    ensures { es.new ≡ records_by w es.old }
{
    if let Some(w) = w {
        es[w.ksx] = with_lower(es[w.ksx], w.lower);
    }
}
