//! Pages that are not present.
ghost use Rattle.std.specs.Prelude.{◌≡◌, ◌/◌, IfNone, IfSome, length};
ghost use Rattle.cp_needs.specs.Words.{IsPresent};
ghost use Rattle.s370_store.specs.Access.{IsAbsent};

use s370_num::AccessKey;
use s370_store::{Access, Fault, PAGE_SIZE, Page, Range, Storage};

/// Returns the page of an address, if the storage has that page and it is not present.
pub(crate) fn absent_at<S: Storage>(storage: &S, address: u32) -> Option<Page>
    ensures page { IfSome result (λ page. page.0 ≡ address / 4096) }
    ensures absent { IfSome result
        (λ page. IsAbsent (length (S.memory storage.now).bytes) (S.present storage.now) page.0) }
    ensures present { IfNone result
        (IsPresent (length (S.memory storage.now).bytes) (S.present storage.now) (address / 4096)) }
{
    match storage.check(
        Range {
            start: address / PAGE_SIZE * PAGE_SIZE,
            count: 1,
        },
        Access::Fetch,
        AccessKey::ZERO,
    ) {
        Err(Fault::Absent(page)) => Some(page),
        Err(Fault::Addressing) => None,
        Err(Fault::Protection) => None,
        Ok(()) => None,
    }
}
