ghost use Rattle.std.specs.Prelude.{◌≡◌};
ghost use Rattle.tus_steps.specs.Method.{is_get, is_head, is_options, is_patch, is_post};

/// The method that a request asks for (tus 1.0.0, Core Protocol).
#[derive(Clone, Copy, Debug, PartialEq, Eq)]
pub enum Method {
    /// POST: a creation.
    Post,
    /// HEAD: what stands of an upload.
    Head,
    /// GET: the bytes of an upload.
    Get,
    /// PATCH: bytes for an upload.
    Patch,
    /// DELETE: the end of an upload.
    Delete,
    /// OPTIONS: what the server can do.
    Options,
    /// Any other, which is not served.
    Other,
}

impl Method {
    /// Whether it is HEAD.
    pub fn is_head(self) -> bool
        ensures { result ≡ is_head self }
    {
        matches!(self, Method::Head)
    }

    /// Whether it is GET.
    pub fn is_get(self) -> bool
        ensures { result ≡ is_get self }
    {
        matches!(self, Method::Get)
    }

    /// Whether it is OPTIONS.
    pub fn is_options(self) -> bool
        ensures { result ≡ is_options self }
    {
        matches!(self, Method::Options)
    }

    /// Whether it is POST.
    pub fn is_post(self) -> bool
        ensures { result ≡ is_post self }
    {
        matches!(self, Method::Post)
    }

    /// Whether it is PATCH.
    pub fn is_patch(self) -> bool
        ensures { result ≡ is_patch self }
    {
        matches!(self, Method::Patch)
    }
}
