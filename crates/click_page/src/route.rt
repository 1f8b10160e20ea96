//! The routes of the page.

ghost use Rattle.std.specs.Prelude.{◌≡◌};
ghost use Rattle.click_page.specs.Asking.{is_method_at, is_write, route_of};

/// The route of a request, by its path.
#[derive(Clone, Copy, Debug, PartialEq, Eq)]
pub(crate) enum Route {
    Page,
    Picture,
    Flat,
    Read,
    Write,
    Swap,
    Metrics,
}

/// Returns the route of a path.
#[tactic(auto, unfolding(crate::specs::Asking::route_of))]
pub(crate) fn route_of(path: &str) -> Option<Route>
    ensures { result ≡ route_of path.now }
{
    match path {
        "/" => Some(Route::Page),
        "/picture.svg" => Some(Route::Picture),
        "/flat" => Some(Route::Flat),
        "/read" => Some(Route::Read),
        "/write" => Some(Route::Write),
        "/swap" => Some(Route::Swap),
        "/metrics" => Some(Route::Metrics),
        _ => None,
    }
}

impl Route {
    /// Returns whether requests for this route write.
    pub(crate) fn is_write(self) -> bool
        ensures { result ≡ is_write self }
    {
        matches!(self, Route::Write | Route::Swap)
    }

    /// Returns whether requests for this route may have this method.
    pub(crate) fn has_method(self, method: &[u8]) -> bool
        ensures { result ≡ is_method_at self method.now }
    {
        if self.is_write() {
            method == b"POST".as_slice()
        } else {
            method == b"GET".as_slice() || method == b"HEAD".as_slice()
        }
    }
}
