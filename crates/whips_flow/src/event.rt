//! The events of a run.

/// What may happen in a run. Sources, views and sessions are named by their place in the script,
/// from 0.
#[derive(Clone, Copy, Debug, PartialEq, Eq)]
pub enum Event {
    /// The source applies its next transaction and sends it.
    Commit(u32),
    /// The source answers the oldest ask of the view: source, view.
    Answer(u32, u32),
    /// The integrator takes the oldest message of the source.
    Integrate(u32),
    /// The manager of the view takes its oldest message.
    Manage(u32),
    /// The merge takes the oldest announced row into its table.
    Rel,
    /// The merge takes the oldest list of the view's manager.
    Act(u32),
    /// The writer begins the oldest waiting transaction of the warehouse.
    Begin,
    /// The writer makes one change of a row.
    Change,
    /// The writer commits the transaction as the next version.
    Publish,
    /// The session begins, at the current version.
    SessionOpen(u32),
    /// The session begins a scan of a view: session, view.
    SessionScan(u32, u32),
    /// The session visits its scan's next slots: session, greatest number of slots.
    SessionFetch(u32, u32),
    /// The session ends.
    SessionClose(u32),
}

impl Event {
    ghost use Rattle.std.specs.Prelude.{◌≡◌};
    ghost use Rattle.whips_flow.specs.Events.{is_pipeline_event};

    /// Whether it is one of the nine events of the pipeline, and not one of a session.
    pub fn is_pipeline(&self) -> bool
        ensures { result ≡ is_pipeline_event self.now }
    {
        !matches!(
            self,
            Event::SessionOpen(_)
                | Event::SessionScan(_, _)
                | Event::SessionFetch(_, _)
                | Event::SessionClose(_)
        )
    }
}
