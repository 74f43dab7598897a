//! The theorem of the core: the pipeline with its contents, against the machine over numbers and the values of the
//! views, for a valid setup and workload and after every list of events.
#![tactic(auto)]

ghost use Rattle.whips_core_laws.specs.Core.{CoreCarries, StoresGoOn};

/// Law: for a valid setup and workload, after every list of events: the numbers of the loaded
/// pipeline are the state of the machine, and the same events are enabled and the same ones full;
/// each view's current rows are its value at the current cut, and what is being written leads to its
/// value at the next one; at each live version the slots show exactly the views' values at that
/// version's cut; each reply on its way fits, and each stage may be asked what the event asks of it.
pub fn core_carries()
    ensures { CoreCarries }
{}

/// Law: the store after more events is a later moment of the store.
pub fn stores_go_on()
    ensures { StoresGoOn }
{}
