//! Laws about requests.

ghost use Rattle.std.specs.Prelude.{◌≡◌, ◌≤◌, ◌&&◌, ℕ, List, [], Bool, Option, true, false, length, codes, bytes_eq};
ghost use Rattle.http.specs.declared.request.Parts.{Parts};
ghost use Rattle.click_page.specs.Asking.{commands_of, has_page_header, is_for_own_host, parse_request};
ghost use Rattle.click_page.specs.Metrics.{later};
ghost use Rattle.click_page.specs.Reads.{AreReads, MakeReads};
ghost use Rattle.click_page.specs.declared.page_request.PageRequest.{PageRequest as APageRequest};
ghost use Rattle.click_page.specs.declared.survey.Survey.{Survey as ASurvey};

/// A request that is not for this page's own host makes no command.
pub fn a_foreign_request_makes_no_command()
    ensures { (port : ℕ) (head : Parts) (body : List ℕ) → is_for_own_host port head ≡ false → commands_of (parse_request port head body) ≡ [] }
{}

/// A request that lacks the header `x-click-page`, or whose method is not POST, makes only commands
/// that read handlers.
pub fn only_a_marked_post_writes()
    ensures { (port : ℕ) (head : Parts) (body : List ℕ) → (has_page_header head && bytes_eq head.method (codes "POST")) ≡ false
        → AreReads (commands_of (parse_request port head body)) }
{}

/// Before its first answer a request makes at most 256 commands.
pub fn a_request_makes_256_commands_at_most()
    ensures { (port : ℕ) (head : Parts) (body : List ℕ) → length (commands_of (parse_request port head body)) ≤ 256 }
{}

/// A read-only page makes only calls that read handlers.
pub fn a_page_that_may_only_read_only_reads()
    ensures { (page_request : APageRequest) → MakeReads true (commands_of page_request) }
{}

/// What a request for metrics makes after its first answers are commands that read handlers, and
/// calls that do, whether the page may only read or not.
pub fn what_follows_only_reads()
    ensures { (readonly : Bool) (survey : Option ASurvey) → AreReads (later survey) × MakeReads readonly (later survey) }
{}
