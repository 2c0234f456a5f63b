//! What is so of every walk.
ghost use Rattle.std.specs.Prelude.{ℕ, ◌≡◌};
ghost use Rattle.s370_walk.specs.declared.parts.Ending.{Ending};
ghost use Rattle.s370_walk.specs.Frozen.{IsSteady, frozen};
ghost use Rattle.s370_store.specs.Memory.{Memory};
ghost use Rattle.s370_walk.specs.Hardware.{Machine};
ghost use Rattle.s370_walk.specs.Viewed.{IsViewed, setting_for, viewed};
ghost use Rattle.s370_walk.specs.Stuck.{IsAsked};
ghost use Rattle.s370_walk.specs.Walk.{Form, Written, live, Over, Reaches, Setting, State};

use crate::traits::Device;

/// Proves that two endings of the same walk are equal, with their storage and device; it has no
/// effect.
pub fn a_walk_comes_to_one_end<D: Device>()
    ensures { (form : Form) (h : Setting D) (s : State D) (e f : Ending) (m n : Memory) (d g : D)
        → Reaches form h s (Over e m d) → Reaches form h s (Over f n g)
        → ◌≡◌ {A = State D} (Over e m d) (Over f n g) }
{}

/// Proves that a program that never changes what it has still to read ends in the same way, whether
/// words are read when reached or at its start; it has no effect.
///
/// What is read are its words and seek arguments.
pub fn steady_programs_end_alike<D: Device>()
    ensures { (form : Form) (h : Setting D) (began : Memory) (s t : State D)
        → IsSteady form h began s
        → Reaches (frozen form began) h s t → Reaches form h s t }
{}

/// Proves that a walk over a device and one over a smaller model of that device come to the same
/// ending; it has no effect.
///
/// Both end with the same storage, and ask for the same pages.
pub fn a_view_walks_as_its_device<D: Device, E: Device>()
    ensures ends { (form : Form) (h : Setting D) (small : Machine E) (view : D → E) (s : State D)
        (e : Ending) (m : Memory)
        (x : E) → IsViewed h.machine small view
        → Reaches form (setting_for small h) (viewed view s) (Over e m x)
        → (d : D) × (view d ≡ x) × Reaches form h s (Over e m d) }
    ensures asks { (w : Written) (h : Setting D) (small : Machine E) (view : D → E) (s : State D)
        (t : State E) (page : ℕ)
        → IsViewed h.machine small view → Reaches (live w) (setting_for small h) (viewed view s) t
        → IsAsked w small t page
        → (u : State D) × Reaches (live w) h s u × IsAsked w h.machine u page }
    ensures walks { (form : Form) (h : Setting D) (small : Machine E) (view : D → E) (s t : State D)
        → IsViewed h.machine small view → Reaches form h s t
        → Reaches form (setting_for small h) (viewed view s) (viewed view t) }
{}
